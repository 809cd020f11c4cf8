//! The board as the state behind a turn lock: its list is its history, and its fixed part is its rules and its law.

use crate::board::Board;
use crate::part::BoardPart;
use board_definitions::{Entry, Law};
use turn_lock::Kept;

impl<W: Law> Kept for Board<W> {
    type Entry = Entry;

    type Fixed = BoardPart<W>;

    ghost entries = { λ board. board.history };

    ghost fixed = { λ board. board.fixed };

    ghost caller = { λ entry. entry.caller };

    fn count(&self) -> u64 {
        self.history().len() as u64
    }
}
