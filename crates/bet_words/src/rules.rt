//! How a book settles abandoned matches.
ghost use Rattle.std.specs.Prelude.{◌≡◌, ◌≤◌, length};
ghost use Rattle.bet_definitions.specs.Tables.{value_of};
ghost use Rattle.bet_definitions.specs.Bets.{rule_text, rule_words};

use crate::words::is_word;
use scan_types::VoidRule;

/// The rule of a word. `None` for any other text.
pub fn read_rule(text: &[u8]) -> Option<VoidRule>
    ensures { result ≡ value_of rule_words text.now }
{
    if is_word(text, "void") {
        Some(VoidRule::Void)
    } else if is_word(text, "score") {
        Some(VoidRule::Score)
    } else if is_word(text, "decided") {
        Some(VoidRule::Decided)
    } else {
        None
    }
}

/// The word of a rule.
pub fn rule_word(rule: VoidRule) -> &'static [u8]
    ensures value { result.now ≡ rule_text rule }
    ensures short { length result.now ≤ 7 }
{
    match rule {
        VoidRule::Void => b"void",
        VoidRule::Score => b"score",
        VoidRule::Decided => b"decided",
    }
}
