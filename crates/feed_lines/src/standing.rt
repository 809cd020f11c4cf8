//! What stands of one feed.
ghost use Rattle.std.specs.Prelude.{◌≡◌, ◌<◌, ◌≤◌, ◌+◌, ℕ, List, [], set, Some, None, is_some, if◌then◌else◌, IfSome, IfNone, OnOk};
ghost use Rattle.std.specs.Str.{bytes_eq};
ghost use Rattle.indexmap.specs.IndexMap.{get as row_at, index_map_len, spare};
ghost use Rattle.scan_types.specs.declared.limits.TheConstants.{MOST_SELECTIONS};
ghost use Rattle.feed_definitions.specs.Standing.{is_quote};
ghost use Rattle.feed_lines.specs.Rows.{IsStanding, row_or_empty, refused_by};

use crate::row::Row;
use feed_definitions::{Cause, Change};
use indexmap::IndexMap;
use scan_types::{MOST_MATCHES, Name, WantOfMemory};
use std::alloc::Global;

/// For each match that was quoted, in the order of the first quotes, which selections stand.
#[derive(Drop)]
pub struct Standing {
    /// At most `MOST_MATCHES` rows.
    pub rows: IndexMap<Name, Row>,
}

impl Standing {
    /// Nothing stands yet. Takes no memory.
    pub fn new(alloc: Global) -> Standing
        ensures { IsStanding (row_at bytes_eq result.rows) (index_map_len result.rows) [] }
    {
        Standing {
            rows: IndexMap::new(alloc),
        }
    }

    /// Makes room for all matches that a feed may quote.
    pub fn reserve(&mut self) -> Result<(), WantOfMemory>
        requires { index_map_len self.old.rows ≤ 256 }
        ensures same { self.new.rows.entries ≡ self.old.rows.entries }
        ensures room { OnOk result (0 < spare self.new.rows) }
    {
        self.rows.reserve(MOST_MATCHES + 1 - self.rows.len())?;
        Ok(())
    }

    /// The same as `change`, of a match that was never quoted.
    fn change_new(&mut self, name: Name, number: u8, change: Change) -> Option<Cause>
        requires room { 0 < spare self.old.rows }
        requires number { number < MOST_SELECTIONS }
        requires absent { row_at bytes_eq self.old.rows name ≡ None }
        ensures refused { result ≡ refused_by None (index_map_len self.old.rows) number change }
        ensures row { IfNone result ((q : List ℕ) → row_at bytes_eq self.new.rows q
            ≡ (if bytes_eq name q then Some (set (row_or_empty None) number (is_quote change)) else row_at bytes_eq self.old.rows q)) }
        ensures len { IfNone result (index_map_len self.new.rows ≡ index_map_len self.old.rows + 1) }
        ensures kept { IfSome result (λ _. self.new.rows.entries ≡ self.old.rows.entries) }
    {
        match change {
            Change::Quote(_, _) => {
                if self.rows.len() >= MOST_MATCHES {
                    return Some(Cause::TooManyMatches);
                }
                let inserted = self.rows.insert(name, Row::of(number));
                prove!(inserted.is_ok());
                None
            }
            Change::Withdraw => Some(Cause::NotQuoted),
        }
    }

    /// Makes this change to the selection of this number at the match, or says why it is refused. One look-up of the match, and a
    /// second one at the first quote of a match.
    pub fn change(&mut self, name: &Name, number: u8, change: Change) -> Option<Cause>
        requires room { 0 < spare self.old.rows }
        requires number { number < MOST_SELECTIONS }
        ensures refused { result ≡ refused_by (row_at bytes_eq self.old.rows name.now) (index_map_len self.old.rows) number change }
        ensures row { IfNone result ((q : List ℕ) → row_at bytes_eq self.new.rows q
            ≡ (if bytes_eq name.now q then Some (set (row_or_empty (row_at bytes_eq self.old.rows name.now)) number (is_quote change)) else row_at bytes_eq self.old.rows q)) }
        ensures len { IfNone result (index_map_len self.new.rows ≡ index_map_len self.old.rows + (if is_some (row_at bytes_eq self.old.rows name.now) then 0 else 1)) }
        ensures kept { IfSome result (λ _. self.new.rows.entries ≡ self.old.rows.entries) }
    {
        if let Some(row) = self.rows.get_mut(name) {
            return row.change(number, change);
        }
        self.change_new(*name, number, change)
    }
}
