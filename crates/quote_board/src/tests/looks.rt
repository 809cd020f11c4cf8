//! Whether an entry may follow a history, looked up in the history itself, entry by entry.

ghost use Rattle.std.specs.Prelude.{◌≡◌, ◌<◌, ◌≤◌, ◌+◌, ℕ, List, Option, IsSome, IsTrue, length};
ghost use Rattle.std.specs.List.{list_any};
ghost use Rattle.scan_types.specs.declared.rule.VoidRule.{VoidRule};
ghost use Rattle.scan_types.specs.Selections.{selection_number};
ghost use Rattle.board_definitions.specs.declared.event.Event.TheVariants as event;
ghost use Rattle.board_definitions.specs.declared.pin.Pin.{Pin as PinOf};
ghost use Rattle.board_definitions.specs.Entries as entries;
ghost use Rattle.board_definitions.specs.Sheets as sheets;
ghost use Rattle.board_definitions.specs.Pins.{IsLive, HasNoPin, has_ended};
ghost use Rattle.board_definitions.specs.Legal.{IsLater, MayQuote, MayWithdraw};

use board_definitions::{Entry, Event, Key, Pin};
use scan_types::{MOST_LIMIT, MOST_STANDING};

fn is_end(event: &Event, feed: u8) -> bool
    ensures { result ≡ entries.ends feed event.now }
{
    match event {
        Event::Ended {
            feed: ended,
            stop: _,
        } => *ended == feed,
        _ => false,
    }
}

pub fn feed_has_ended(history: &[Entry], feed: u8) -> bool
    ensures { result ≡ has_ended history.now feed }
{
    history.iter().any(|entry| is_end(&entry.event, feed))
}

fn is_before_line(event: &Event, feed: u8, line: u32) -> bool
    ensures { IsTrue result → entries.IsBeforeLine feed line event.now }
{
    match event {
        Event::Quoted {
            key,
            odds: _,
            limit: _,
            line: number,
        } => key.feed != feed || *number < line,
        Event::Withdrawn { key, line: number } => key.feed != feed || *number < line,
        _ => true,
    }
}

fn is_later(history: &[Entry], feed: u8, line: u32) -> bool
    ensures { IsTrue result → IsLater history.now feed line }
{
    history
        .iter()
        .all(|entry| is_before_line(&entry.event, feed, line))
}

fn is_same_key(key: &Key, other: &Key) -> bool
    ensures { result ≡ entries.is_key key.now.match_name key.now.feed (selection_number key.now.selection) other.now }
{
    other.match_name == key.match_name
        && (other.feed == key.feed && other.selection.number() == key.selection.number())
}

fn is_about_key(event: &Event, key: &Key) -> bool
    ensures { result ≡ entries.is_about key.now.match_name key.now.feed (selection_number key.now.selection) event.now }
{
    match event {
        Event::Quoted {
            key: quoted,
            odds: _,
            limit: _,
            line: _,
        } => is_same_key(key, quoted),
        Event::Withdrawn {
            key: withdrawn,
            line: _,
        } => is_same_key(key, withdrawn),
        _ => false,
    }
}

fn is_a_quote(event: &Event) -> bool
    ensures { result ≡ entries.is_quote event.now }
{
    matches!(event, Event::Quoted { .. })
}

fn key_stands(history: &[Entry], key: &Key) -> bool
    ensures { result ≡ sheets.stands history.now key.now.match_name key.now.feed (selection_number key.now.selection) }
{
    match history
        .iter()
        .rev()
        .find(|entry| is_about_key(&entry.event, key))
    {
        Some(entry) => is_a_quote(&entry.event),
        None => false,
    }
}

#[tactic(auto, using(crate::proofs::ShortHistories::short_history))]
/// Whether the feed, which exists, may quote the key. Only for histories that are shorter than a feed's most offers.
pub fn may_quote(history: &[Entry], key: &Key, limit: u32, line: u32) -> bool
    ensures { IsTrue result → (rules : List (Option VoidRule)) → IsSome (entries.rule_of rules key.now.feed) →
        MayQuote rules history.now (key.now.feed + 1) key.now limit line }
{
    !feed_has_ended(history, key.feed)
        && (is_later(history, key.feed, line)
            && (history.len() < MOST_STANDING && (1 <= limit && limit <= MOST_LIMIT)))
}

/// Whether the feed, which exists, may withdraw the key.
pub fn may_withdraw(history: &[Entry], key: &Key, line: u32) -> bool
    ensures { IsTrue result → (rules : List (Option VoidRule)) → IsSome (entries.rule_of rules key.now.feed) →
        MayWithdraw rules history.now (key.now.feed + 1) key.now line }
{
    !feed_has_ended(history, key.feed)
        && (is_later(history, key.feed, line) && key_stands(history, key))
}

fn is_close(event: &Event, version: u64) -> bool
    ensures { result ≡ entries.closes version event.now }
{
    match event {
        Event::Filed {
            version: filed,
            finding: _,
        } => *filed == version,
        Event::Released { version: released } => *released == version,
        _ => false,
    }
}

fn is_closed(rest: &[Entry], version: u64) -> bool
    ensures { result ≡ list_any (λ entry. entries.closes version entry.event) rest.now }
{
    rest.iter().any(|entry| is_close(&entry.event, version))
}

fn is_pin_of(entry: &Entry, caller: u8) -> bool
    ensures { (match_name : List ℕ) → entry.now ≡ record { caller = caller; event = event.Pinned match_name } → IsTrue result }
{
    entry.caller == caller && matches!(&entry.event, Event::Pinned { .. })
}

fn is_open_pin(history: &[Entry], version: usize, caller: u8) -> bool
    requires { version < length history.now }
    ensures { (pin : PinOf) → pin.version ≡ version → pin.caller ≡ caller → IsLive history.now pin → IsTrue result }
{
    is_pin_of(&history[version], caller) && !is_closed(&history[version..], version as u64)
}

/// Whether the caller holds no pin.
pub fn holds_no_pin(history: &[Entry], caller: u8) -> bool
    ensures { IsTrue result → HasNoPin history.now caller }
{
    for version in 0..history.len() {
        if is_open_pin(history, version, caller) {
            return false;
        }
    }
    true
}

fn is_entry_of(entry: &Entry, pin: &Pin) -> bool
    ensures { IsTrue result → entry.now ≡ record { caller = pin.now.caller; event = event.Pinned pin.now.match_name } }
{
    match &entry.event {
        Event::Pinned { match_name } => {
            entry.caller == pin.caller && *match_name == pin.match_name
        }
        _ => false,
    }
}

/// Whether the pin is live.
pub fn pin_is_live(history: &[Entry], pin: &Pin) -> bool
    ensures { IsTrue result → IsLive history.now pin.now }
{
    let version = pin.version as usize;
    match history.get(version) {
        Some(entry) => is_entry_of(entry, pin) && !is_closed(&history[version..], pin.version),
        None => false,
    }
}
