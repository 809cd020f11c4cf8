//! Which selections of one match stand.
ghost use Rattle.std.specs.Prelude.{◌≡◌, ◌<◌, ℕ, false, true, Some, get_or, set, replicate, IfSome, IfNone};
ghost use Rattle.scan_types.specs.declared.limits.TheConstants.{MOST_SELECTIONS};
ghost use Rattle.feed_definitions.specs.Standing.{is_quote};
ghost use Rattle.feed_lines.specs.Rows.{quote_refused_by, withdrawal_refused_by, refused_by};

use feed_definitions::{Cause, Change};
use scan_types::{MOST_SELECTIONS, MOST_STANDING};
use std::marker::Model;

/// Which selections of a match stand, by their numbers. Beside them it keeps how many do, so that no call counts them.
#[derive(Drop)]
pub struct Row {
    flags: [bool; MOST_SELECTIONS],
    count: usize,
}

impl Model for Row {
    ghost use Rattle.std.specs.Prelude.{◌≡◌, Bool, List, count_by};

    ghost Value = { List Bool };

    ghost view = { λ row. row.flags };

    ghost invariant = { λ row. row.count ≡ count_by (λ stands. stands) row.flags };
}

impl Row {
    /// The row of a match at which the selection of this number alone stands.
    pub fn of(number: u8) -> Row
        requires { number < MOST_SELECTIONS }
        ensures { result ≡ set (replicate MOST_SELECTIONS false) number true }
    {
        let mut flags = [false; MOST_SELECTIONS];
        flags[usize::from(number)] = true;
        Row { flags, count: 1 }
    }

    /// A quote of the selection of this number.
    fn quote(&mut self, number: u8) -> Option<Cause>
        requires { number < MOST_SELECTIONS }
        ensures refused { (rows : ℕ) → result ≡ quote_refused_by (Some self.old) rows number }
        ensures made { IfNone result (self.new ≡ set self.old number true) }
        ensures kept { IfSome result (λ _. self.new ≡ self.old) }
    {
        let index = usize::from(number);
        if self.flags[index] {
            return None;
        }
        if self.count >= MOST_STANDING {
            return Some(Cause::TooManyOffers);
        }
        self.flags[index] = true;
        self.count += 1;
        None
    }

    /// A withdrawal of the selection of this number.
    fn withdraw(&mut self, number: u8) -> Option<Cause>
        requires { number < MOST_SELECTIONS }
        ensures refused { result ≡ withdrawal_refused_by (Some self.old) number }
        ensures made { IfNone result (self.new ≡ set self.old number false) }
        ensures kept { IfSome result (λ _. self.new ≡ self.old) }
    {
        let index = usize::from(number);
        if !self.flags[index] {
            return Some(Cause::NotQuoted);
        }
        self.flags[index] = false;
        self.count -= 1;
        None
    }

    /// Makes this change to the selection of this number, or says why it is refused. O(1).
    pub fn change(&mut self, number: u8, change: Change) -> Option<Cause>
        requires { number < MOST_SELECTIONS }
        ensures refused { (rows : ℕ) → result ≡ refused_by (Some self.old) rows number change }
        ensures made { IfNone result (self.new ≡ set self.old number (is_quote change)) }
        ensures kept { IfSome result (λ _. self.new ≡ self.old) }
    {
        match change {
            Change::Quote(_, _) => self.quote(number),
            Change::Withdraw => self.withdraw(number),
        }
    }
}
