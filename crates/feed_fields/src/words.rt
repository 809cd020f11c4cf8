//! The words of a feed that no bet has, each as what it stands for.
ghost use Rattle.std.specs.Prelude.{◌≡◌};
ghost use Rattle.feed_definitions.specs.Forms.{one_of, feed_words, version_words, action_words};

use bet_words::is_word;
use feed_definitions::{Action, Cause};

/// The word that a header begins with.
pub fn feed_word(text: &[u8]) -> Result<(), Cause>
    ensures { result ≡ one_of feed_words text.now }
{
    if is_word(text, "feed") {
        Ok(())
    } else {
        Err(Cause::UnknownWord)
    }
}

/// The version of the feed text.
pub fn version_word(text: &[u8]) -> Result<(), Cause>
    ensures { result ≡ one_of version_words text.now }
{
    if is_word(text, "1") {
        Ok(())
    } else {
        Err(Cause::UnknownWord)
    }
}

/// What a line does.
pub fn action_word(text: &[u8]) -> Result<Action, Cause>
    ensures { result ≡ one_of action_words text.now }
{
    if is_word(text, "quote") {
        Ok(Action::Quotes)
    } else if is_word(text, "withdraw") {
        Ok(Action::Withdraws)
    } else {
        Err(Cause::UnknownWord)
    }
}
