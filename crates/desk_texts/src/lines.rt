//! The error lines.
ghost use Rattle.std.specs.Prelude.{◌≡◌, ◌≤◌, length};
ghost use Rattle.desk_definitions.specs.Texts.{about_feed, cannot_be_opened, cannot_be_read, have_one_name, is_no_header};

use crate::causes::cause_word;
use feed_definitions::Refusal;
use odds_fixed::TextBuf;
use text_out::{push_field, push_number, push_word};

// What begins each line about one feed.
fn about_feed(feed: u8) -> TextBuf
    ensures value { result ≡ about_feed feed }
    ensures short { length result ≤ 76 }
{
    let mut text = TextBuf::new();
    push_word(&mut text, b"error: feed");
    push_number(&mut text, feed as u64);
    text
}

/// `error: feed K cannot be opened`.
pub fn cannot_be_opened(feed: u8) -> TextBuf
    ensures { result ≡ cannot_be_opened feed }
{
    let mut text = about_feed(feed);
    push_word(&mut text, b" cannot be opened\n");
    text
}

/// `error: feed K cannot be read`.
pub fn cannot_be_read(feed: u8) -> TextBuf
    ensures { result ≡ cannot_be_read feed }
{
    let mut text = about_feed(feed);
    push_word(&mut text, b" cannot be read\n");
    text
}

/// `error: feed K header column C CAUSE`, with the column and the cause of this refusal.
pub fn is_no_header(feed: u8, refusal: &Refusal) -> TextBuf
    ensures { result ≡ is_no_header feed refusal.now.place.column refusal.now.cause }
{
    let mut text = about_feed(feed);
    push_word(&mut text, b" header column");
    push_number(&mut text, refusal.place.column as u64);
    push_field(&mut text, cause_word(refusal.cause));
    push_word(&mut text, b"\n");
    text
}

/// `error: feeds I and J have one book name`.
pub fn have_one_name(earlier: u8, later: u8) -> TextBuf
    ensures { result ≡ have_one_name earlier later }
{
    let mut text = TextBuf::new();
    push_word(&mut text, b"error: feeds");
    push_number(&mut text, earlier as u64);
    push_word(&mut text, b" and");
    push_number(&mut text, later as u64);
    push_word(&mut text, b" have one book name\n");
    text
}
