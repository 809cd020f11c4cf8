//! A board whose calls look first whether they may be made, so that a table of calls can be played on it.

ghost use Rattle.std.specs.Prelude.{◌<◌, ◌≤◌, ℕ, length, IsSome};
ghost use Rattle.board_definitions.specs.Entries.{rule_of};

use super::looks::{feed_has_ended, holds_no_pin, may_quote, may_withdraw, pin_is_live};
use crate::Board;
use board_definitions::{FeedStop, Key, Law, Pick, Pin};
use finding_definitions::{Finding, Measure};
use scan_types::{MOST_FEEDS, Name, Odds, Offer, Outcome, Selection, VoidRule, WantOfMemory};
use std::alloc::Global;

/// The stake limit of every quote.
const LIMIT: u32 = 100;

/// A law that allows every finding.
#[derive(Drop)]
pub struct AnyFinding;

impl Law for AnyFinding {
    ghost allows = { λ law offers finding. Unit {0} };
}

/// Feed, selection number and odds in thousandths of an offer.
pub type Terms = (u8, u8, u32);

/// A place that was not written.
pub const NONE: Terms = (7, 0, 1001);

/// A call of the board. Matches are told by their numbers, 0 and 1.
#[derive(Clone, Copy)]
pub enum Call {
    /// Feed, match, selection, odds in thousandths, line.
    Quote(u8, u8, Selection, u32, u32),
    /// Feed, match, selection, line.
    Withdraw(u8, u8, Selection, u32),
    /// Feed.
    End(u8),
    /// Caller.
    Pin(u8),
    /// Caller, match.
    PinNamed(u8, u8),
    /// Caller, version and match of a pin.
    Read(u8, u64, u8),
    /// Caller, version and match of a pin.
    File(u8, u64, u8),
    /// Caller, version and match of a pin.
    Release(u8, u64, u8),
}

/// What a call gives.
#[derive(Clone, Copy, PartialEq)]
pub enum Answer {
    /// One entry was added.
    Done,
    /// A pin of this version.
    Pinned(u64),
    /// No pin, while some feed runs.
    Idle,
    /// No pin, as all feeds have ended.
    Finished,
    /// How many offers were copied into three places, and what stands there.
    Copied(usize, [Terms; 3]),
    /// The call may not be made.
    Refused,
}

/// A call, what it gives, and after it the number of entries and the newest sheets of both matches.
#[derive(Clone, Copy)]
pub struct Row {
    pub call: Call,
    pub answer: Answer,
    pub entries: usize,
    pub sheets: ([Terms; 3], [Terms; 3]),
}

/// A board of so many feeds, and the names of two matches.
#[derive(Drop)]
pub struct CheckedBoard {
    board: Board<AnyFinding>,
    names: (Name, Name),
    feeds: u8,
    ghost feeds_are: { (feed : ℕ) → feed < feeds → IsSome (rule_of board.fixed.rules feed) },
}

fn blank() -> Offer {
    Offer {
        feed: 7,
        selection: Selection::Home,
        odds: Odds { thousandths: 1001 },
        limit: 1,
        rule: VoidRule::Void,
    }
}

fn terms(offer: &Offer) -> Terms {
    (offer.feed, offer.selection.number(), offer.odds.thousandths)
}

fn terms_of(offers: &[Offer; 3]) -> [Terms; 3] {
    [terms(&offers[0]), terms(&offers[1]), terms(&offers[2])]
}

fn coherent(alloc: Global) -> Result<Finding, WantOfMemory> {
    let mut weights = Vec::new(alloc);
    weights.push((Outcome::Full(0, 0), 1))?;
    Ok(Finding::Coherent(Measure::of(weights)))
}

impl CheckedBoard {
    #[tactic(auto, using(crate::proofs::CheckedFeeds::rules_there))]
    pub fn new(
        alloc: Global,
        names: (Name, Name),
        rules: &[VoidRule],
    ) -> Result<CheckedBoard, WantOfMemory>
        requires some { 1 ≤ length rules.now }
        requires few { length rules.now ≤ MOST_FEEDS }
    {
        Ok(CheckedBoard {
            board: Board::new(alloc, AnyFinding, rules)?,
            names,
            feeds: rules.len() as u8,
        })
    }

    fn name(&self, number: u8) -> Name {
        if number == 0 {
            self.names.0
        } else {
            self.names.1
        }
    }

    fn key(&self, feed: u8, number: u8, selection: Selection) -> Key {
        Key {
            feed,
            match_name: self.name(number),
            selection,
        }
    }

    fn pin_of(&self, caller: u8, version: u64, number: u8) -> Pin {
        Pin {
            caller,
            version,
            match_name: self.name(number),
        }
    }

    fn quote(&mut self, key: Key, thousandths: u32, line: u32) -> Result<Answer, WantOfMemory> {
        let Some(odds) = Odds::new(thousandths) else {
            return Ok(Answer::Refused);
        };
        if key.feed >= self.feeds || !may_quote(self.board.history(), &key, LIMIT, line) {
            return Ok(Answer::Refused);
        }
        self.board.quote(key.feed + 1, key, odds, LIMIT, line)?;
        Ok(Answer::Done)
    }

    fn withdraw(&mut self, key: Key, line: u32) -> Result<Answer, WantOfMemory> {
        if key.feed >= self.feeds || !may_withdraw(self.board.history(), &key, line) {
            return Ok(Answer::Refused);
        }
        self.board.withdraw(key.feed + 1, key, line)?;
        Ok(Answer::Done)
    }

    fn end_feed(&mut self, feed: u8) -> Answer {
        if feed >= self.feeds || feed_has_ended(self.board.history(), feed) {
            return Answer::Refused;
        }
        self.board.end_feed(feed + 1, feed, FeedStop::End);
        Answer::Done
    }

    fn pin(&mut self, caller: u8) -> Result<Answer, WantOfMemory> {
        if !holds_no_pin(self.board.history(), caller) {
            return Ok(Answer::Refused);
        }
        match self.board.pin(caller)? {
            Pick::Pinned(pin) => Ok(Answer::Pinned(pin.version)),
            Pick::Idle => Ok(Answer::Idle),
            Pick::Finished => Ok(Answer::Finished),
        }
    }

    fn pin_named(&mut self, caller: u8, match_name: Name) -> Result<Answer, WantOfMemory> {
        if !holds_no_pin(self.board.history(), caller) {
            return Ok(Answer::Refused);
        }
        let pin = self.board.pin_named(caller, match_name)?;
        Ok(Answer::Pinned(pin.version))
    }

    fn read(&self, pin: &Pin) -> Answer {
        if !pin_is_live(self.board.history(), pin) {
            return Answer::Refused;
        }
        let mut out = [blank(); 3];
        let count = self.board.read(pin, 0, &mut out);
        Answer::Copied(count, terms_of(&out))
    }

    fn file(&mut self, alloc: Global, pin: Pin) -> Result<Answer, WantOfMemory> {
        if !pin_is_live(self.board.history(), &pin) {
            return Ok(Answer::Refused);
        }
        let finding = coherent(alloc)?;
        self.board.file(pin, finding);
        Ok(Answer::Done)
    }

    fn release(&mut self, pin: Pin) -> Answer {
        if !pin_is_live(self.board.history(), &pin) {
            return Answer::Refused;
        }
        self.board.release(pin);
        Answer::Done
    }

    fn play(&mut self, alloc: Global, call: &Call) -> Result<Answer, WantOfMemory> {
        match *call {
            Call::Quote(feed, number, selection, thousandths, line) => {
                let key = self.key(feed, number, selection);
                self.quote(key, thousandths, line)
            }
            Call::Withdraw(feed, number, selection, line) => {
                let key = self.key(feed, number, selection);
                self.withdraw(key, line)
            }
            Call::End(feed) => Ok(self.end_feed(feed)),
            Call::Pin(caller) => self.pin(caller),
            Call::PinNamed(caller, number) => {
                let match_name = self.name(number);
                self.pin_named(caller, match_name)
            }
            Call::Read(caller, version, number) => {
                Ok(self.read(&self.pin_of(caller, version, number)))
            }
            Call::File(caller, version, number) => {
                let pin = self.pin_of(caller, version, number);
                self.file(alloc, pin)
            }
            Call::Release(caller, version, number) => {
                let pin = self.pin_of(caller, version, number);
                Ok(self.release(pin))
            }
        }
    }

    fn newest(&self, number: u8) -> [Terms; 3] {
        let mut out = [blank(); 3];
        self.board.newest(&self.name(number), 0, &mut out);
        terms_of(&out)
    }

    fn is_as_told(&mut self, alloc: Global, row: &Row) -> Result<bool, WantOfMemory> {
        let answer = self.play(alloc, &row.call)?;
        Ok(
            answer == row.answer
                && (self.board.history().len() == row.entries
                    && (self.newest(0) == row.sheets.0 && self.newest(1) == row.sheets.1)),
        )
    }

    /// The first row that is not as told, and the number of rows if each is.
    pub fn first_other(&mut self, alloc: Global, rows: &[Row]) -> Result<usize, WantOfMemory> {
        for number in 0..rows.len() {
            if !self.is_as_told(alloc, &rows[number])? {
                return Ok(number);
            }
        }
        Ok(rows.len())
    }
}
