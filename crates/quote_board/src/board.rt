ghost use Rattle.std.specs.Prelude.{◌≡◌, ◌≢◌, ◌+◌, ◌-◌, ◌≤◌, ◌<◌, ◌++◌, ◌∷◌, [], List, length, map, replicate, Some, None, OnOk, OnErr, IfOk, vec_len, vec_capacity};
ghost use Rattle.board_definitions.specs.declared.event.Event.TheVariants as event;
ghost use Rattle.board_definitions.specs.declared.event.FeedStop.TheVariants.{BadHeader};
ghost use Rattle.std.specs.Prelude.{IsSome, option_and_then};
ghost use Rattle.scan_types.specs.Ranges.{IsLimitRange};
ghost use Rattle.scan_types.specs.Selections.{selection_number};
ghost use Rattle.board_definitions.specs.Entries.{rule_of};
ghost use Rattle.quote_board.specs.Answers.{AreRulesOf, IsCopied, IsEmptyPick};
ghost use Rattle.quote_board.specs.Books.{IsFirstWaiting};
ghost use Rattle.board_definitions.specs.Pins.{IsLive, HasNoPin};
ghost use Rattle.board_definitions.specs.Sheets.{sheet, offer_with};
ghost use Rattle.board_definitions.specs.Legal.{IsOpenFeed, MayQuote, MayWithdraw};

use crate::book::{Book, Slot};
use crate::books::{copy_newest, copy_sheet, quote_on, settle, withdraw_on};
use crate::held::Held;
use crate::part::BoardPart;
use board_definitions::{Entry, Event, FeedStop, Key, Law, Pick, Pin};
use finding_definitions::Finding;
use indexmap::IndexMap;
use scan_types::{MOST_FEEDS, MOST_STANDING, Name, Odds, Offer, VoidRule, WantOfMemory};
use std::alloc::Global;
use std::collections::BTreeMap;
use std::marker::Model;

/// The quote board: a history of entries, over rules and a law that never change.
#[derive(Drop)]
pub struct Board<W: Law> {
    fixed: BoardPart<W>,
    history: Vec<Entry>,
    books: IndexMap<Name, Book>,
    waiting: BTreeMap<u64, Name>,
    pins: BTreeMap<u8, Held>,
    open_feeds: usize,
    alloc: Global,
}

impl<W: Law> Model for Board<W> {
    ghost use Rattle.std.specs.Prelude.{vec_capacity};
    ghost use Rattle.quote_board.specs.Views.{BoardView};
    ghost use Rattle.quote_board.specs.Kept.{IsSound};

    ghost Value = { BoardView W };

    ghost view = { λ b. record { history = b.history.items; fixed = b.fixed } };

    ghost invariant = { λ b. IsSound (W.allows b.fixed.law) b.fixed.rules b.history.items (vec_capacity b.history) b.books b.waiting b.pins b.open_feeds };
}

/// Adds an entry, for which there is room.
fn add(history: &mut Vec<Entry>, caller: u8, event: Event)
    requires { vec_len history.old < vec_capacity history.old }
    ensures items { history.new.items ≡ history.old.items ++ record { caller = caller; event = event } ∷ [] }
    ensures capacity { vec_capacity history.old ≤ vec_capacity history.new }
{
    let pushed = history.push(Entry { caller, event });
    prove!(pushed.is_ok());
}

/// The slot of the key's offer.
fn slot_of(key: &Key) -> Slot
    ensures feed { result.feed ≡ key.now.feed }
    ensures number { result.number ≡ selection_number key.now.selection }
{
    Slot {
        feed: key.feed,
        number: key.selection.number(),
    }
}

/// The rules by feed number, and none beyond the last feed.
fn rules_by_feed(rules: &[VoidRule]) -> [Option<VoidRule>; MOST_FEEDS]
    requires { length rules.now ≤ MOST_FEEDS }
    ensures rules { AreRulesOf rules.now result }
    ensures eight { length result ≡ MOST_FEEDS }
{
    let mut slots = [None; MOST_FEEDS];
    for feed in 0..rules.len() {
        slots[feed] = Some(rules[feed]);
    }
    slots
}

/// The rule of a feed that there is.
fn rule_for(rules: &[Option<VoidRule>], feed: u8) -> VoidRule
    requires eight { length rules.now ≡ MOST_FEEDS }
    requires exists { IsSome (rule_of rules.now feed) }
    ensures value { rule_of rules.now feed ≡ Some result }
    ensures fits { feed < MOST_FEEDS }
{
    match rules.get(usize::from(feed)) {
        Some(Some(rule)) => *rule,
        _ => unreachable!(),
    }
}

/// The offer that a quote makes, under the rule of its feed.
fn offer_for(rules: &[Option<VoidRule>], key: &Key, odds: Odds, limit: u32) -> Offer
    requires eight { length rules.now ≡ MOST_FEEDS }
    requires exists { IsSome (rule_of rules.now key.now.feed) }
    requires in_range { IsLimitRange limit }
    ensures { option_and_then (offer_with key.now.feed key.now.selection odds limit) (rule_of rules.now key.now.feed) ≡ Some result }
{
    let rule = rule_for(rules, key.feed);
    Offer {
        feed: key.feed,
        selection: key.selection,
        odds,
        limit,
        rule,
    }
}

/// The match that is due since the earliest entry, if any is due.
fn longest_waiting(waiting: &BTreeMap<u64, Name>) -> Option<Name>
    ensures { IsFirstWaiting waiting.now result }
{
    match waiting.first_key_value() {
        Some((_, match_name)) => Some(*match_name),
        None => None,
    }
}

/// The answer if no match is due and so many feeds have not ended.
fn empty_pick(open_feeds: usize) -> Pick
    ensures { IsEmptyPick open_feeds result }
{
    if open_feeds == 0 {
        Pick::Finished
    } else {
        Pick::Idle
    }
}

/// Copies offers from a place on, and returns how many: as many as there are and as fit.
fn copy_part(offers: &[Offer], from: usize, out: &mut [Offer]) -> usize
    requires { from ≤ length offers.now }
    ensures { IsCopied offers.now from out.old out.new result }
{
    let rest = &offers[from..];
    let count = rest.len().min(out.len());
    out[..count].copy_from_slice(&rest[..count]);
    count
}

impl<W: Law> Board<W> {
    ghost use Rattle.quote_board.specs.Views.{with_entry};
    ghost use Rattle.quote_board.specs.Answers.{HasLegalHistory, IsPick, next_pin};

    /// A board without entries, for as many feeds as there are rules, by feed number.
    ///
    /// Takes the room for one `Ended` a feed. Fails only if no memory is left.
    pub fn new(alloc: Global, law: W, rules: &[VoidRule]) -> Result<Board<W>, WantOfMemory>
        requires some { 1 ≤ length rules.now }
        requires few { length rules.now ≤ MOST_FEEDS }
        ensures history { IfOk result (λ board. board.history ≡ []) }
        ensures law { IfOk result (λ board. board.fixed.law ≡ law) }
        ensures rules { IfOk result (λ board. AreRulesOf rules.now board.fixed.rules) }
    {
        let history = Vec::with_capacity(alloc, rules.len())?;
        Ok(Board {
            fixed: BoardPart {
                rules: rules_by_feed(rules),
                law,
            },
            history,
            books: IndexMap::new(alloc),
            waiting: BTreeMap::new(alloc),
            pins: BTreeMap::new(alloc),
            open_feeds: rules.len(),
            alloc,
        })
    }

    /// Takes the feed's quote: the odds and the limit stand from now on at the key. It adds one entry.
    ///
    /// One look-up of the match and one of the key. After want of memory the board is as before.
    pub fn quote(
        &mut self,
        caller: u8,
        key: Key,
        odds: Odds,
        limit: u32,
        line: u32,
    ) -> Result<(), WantOfMemory>
        requires { MayQuote self.old.fixed.rules self.old.history caller key limit line }
        ensures added { OnOk result (self.new ≡ with_entry self.old caller (event.Quoted key odds limit line)) }
        ensures unchanged { OnErr result (self.new ≡ self.old) }
        ensures legal { HasLegalHistory W.allows self.new }
    {
        let offer = offer_for(&self.fixed.rules, &key, odds, limit);
        let place = self.history.len() as u64;
        self.history.reserve(self.pins.len() + self.open_feeds + 1)?;
        quote_on(
            &mut self.books,
            &mut self.waiting,
            self.alloc,
            key.match_name,
            slot_of(&key),
            offer,
            place,
        )?;
        let event = Event::Quoted {
            key,
            odds,
            limit,
            line,
        };
        add(&mut self.history, caller, event);
        Ok(())
    }

    /// Takes the feed's withdrawal of a quote that stands. It adds one entry.
    ///
    /// One look-up of the match and one of the key. After want of memory the board is as before.
    pub fn withdraw(&mut self, caller: u8, key: Key, line: u32) -> Result<(), WantOfMemory>
        requires { MayWithdraw self.old.fixed.rules self.old.history caller key line }
        ensures added { OnOk result (self.new ≡ with_entry self.old caller (event.Withdrawn key line)) }
        ensures unchanged { OnErr result (self.new ≡ self.old) }
        ensures legal { HasLegalHistory W.allows self.new }
    {
        let place = self.history.len() as u64;
        self.history.reserve(self.pins.len() + self.open_feeds + 1)?;
        withdraw_on(
            &mut self.books,
            &mut self.waiting,
            key.match_name,
            slot_of(&key),
            place,
        )?;
        add(&mut self.history, caller, Event::Withdrawn { key, line });
        Ok(())
    }

    /// Says that the feed has ended, and how. It adds one entry, whose room was taken in `new`. Constant time; takes no memory.
    pub fn end_feed(&mut self, caller: u8, feed: u8, stop: FeedStop)
        requires open { IsOpenFeed self.old.fixed.rules self.old.history caller feed }
        requires stop { stop ≢ BadHeader }
        ensures added { self.new ≡ with_entry self.old caller (event.Ended feed stop) }
        ensures legal { HasLegalHistory W.allows self.new }
    {
        self.open_feeds -= 1;
        add(&mut self.history, caller, Event::Ended { feed, stop });
    }

    /// Pins the sheet of the match as it is now, whether the match is due or not. It adds one entry.
    ///
    /// Copies the sheet. The room for what ends the pin is taken here. After want of memory the board is as before.
    pub fn pin_named(&mut self, caller: u8, match_name: Name) -> Result<Pin, WantOfMemory>
        requires { HasNoPin self.old.history caller }
        ensures pinned { IfOk result (λ pin. pin ≡ next_pin self.old.history caller match_name) }
        ensures added { OnOk result (self.new ≡ with_entry self.old caller (event.Pinned match_name)) }
        ensures unchanged { OnErr result (self.new ≡ self.old) }
        ensures legal { HasLegalHistory W.allows self.new }
    {
        let version = self.history.len() as u64;
        let offers = copy_sheet(&self.books, self.alloc, match_name)?;
        self.history.reserve(self.pins.len() + self.open_feeds + 2)?;
        let held = Held {
            version,
            match_name,
            offers,
        };
        self.pins.insert(caller, held)?;
        settle(&mut self.books, &mut self.waiting, match_name);
        add(&mut self.history, caller, Event::Pinned { match_name });
        Ok(Pin {
            caller,
            version,
            match_name,
        })
    }

    /// Pins the match that is due since the earliest entry. If none is due it adds nothing, and returns `Idle` while some feed has
    /// not ended, and `Finished` once all have.
    ///
    /// Looks at no other match. Copies the sheet. After want of memory the board is as before.
    pub fn pin(&mut self, caller: u8) -> Result<Pick, WantOfMemory>
        requires { HasNoPin self.old.history caller }
        ensures pick { IfOk result (IsPick self.old caller self.new) }
        ensures unchanged { OnErr result (self.new ≡ self.old) }
        ensures legal { HasLegalHistory W.allows self.new }
    {
        match longest_waiting(&self.waiting) {
            Some(match_name) => Ok(Pick::Pinned(self.pin_named(caller, match_name)?)),
            None => Ok(empty_pick(self.open_feeds)),
        }
    }

    /// Copies offers of the pinned sheet, from a place on, and returns how many: as many as there are and as fit. It adds nothing.
    ///
    /// One look-up of the pin, and O(copied). Takes no memory.
    pub fn read(&self, pin: &Pin, from: usize, out: &mut [Offer]) -> usize
        requires live { IsLive self.now.history pin.now }
        requires some { 1 ≤ length out.old }
        requires few { length out.old ≤ MOST_STANDING }
        requires within { from ≤ length (sheet self.now.fixed.rules self.now.history pin.now.version pin.now.match_name) }
        ensures { IsCopied (sheet self.now.fixed.rules self.now.history pin.now.version pin.now.match_name) from out.old out.new result }
    {
        match self.pins.get(&pin.caller) {
            Some(held) => copy_part(held.offers.as_slice(), from, out),
            None => unreachable!(),
        }
    }

    /// Copies offers of the match's sheet as it is now, from a place on, and returns how many: as many as there are and as fit. It
    /// adds nothing, and needs no pin.
    ///
    /// One look-up of the match. Steps over the offers before `from`. Takes no memory.
    #[tactic(auto, using(crate::proofs::Lists::newest_sheet))]
    pub fn newest(&self, match_name: &Name, from: usize, out: &mut [Offer]) -> usize
        requires some { 1 ≤ length out.old }
        requires few { length out.old ≤ MOST_STANDING }
        requires within { from ≤ length (sheet self.now.fixed.rules self.now.history (length self.now.history) match_name.now) }
        ensures { IsCopied (sheet self.now.fixed.rules self.now.history (length self.now.history) match_name.now) from out.old out.new result }
    {
        copy_newest(&self.books, match_name, from, out)
    }

    /// Files what was found of the sheet of a live pin, which ends the pin. It adds one entry, whose room was taken with the pin.
    ///
    /// One look-up of the pin. Takes no memory, and gives back that of the pinned sheet.
    pub fn file(&mut self, pin: Pin, finding: Finding)
        requires live { IsLive self.old.history pin }
        requires allowed { W.allows self.old.fixed.law (sheet self.old.fixed.rules self.old.history pin.version pin.match_name) finding }
        ensures added { self.new ≡ with_entry self.old pin.caller (event.Filed pin.version finding) }
        ensures legal { HasLegalHistory W.allows self.new }
    {
        self.pins.remove(&pin.caller);
        let event = Event::Filed {
            version: pin.version,
            finding,
        };
        add(&mut self.history, pin.caller, event);
    }

    /// Ends a live pin without a finding. It adds one entry, whose room was taken with the pin.
    ///
    /// One look-up of the pin. Takes no memory, and gives back that of the pinned sheet.
    pub fn release(&mut self, pin: Pin)
        requires { IsLive self.old.history pin }
        ensures added { self.new ≡ with_entry self.old pin.caller (event.Released pin.version) }
        ensures legal { HasLegalHistory W.allows self.new }
    {
        self.pins.remove(&pin.caller);
        let version = pin.version;
        add(&mut self.history, pin.caller, Event::Released { version });
    }

    /// The history, which is legal, from the first entry on. Constant time.
    pub fn history(&self) -> &[Entry]
        ensures value { result.now ≡ self.now.history }
        ensures legal { HasLegalHistory W.allows self.now }
    {
        self.history.as_slice()
    }

    /// The history, which is legal, and nothing else of the board.
    pub fn into_history(self) -> Vec<Entry>
        ensures value { result.items ≡ self.history }
        ensures legal { HasLegalHistory W.allows self }
    {
        self.history
    }
}
