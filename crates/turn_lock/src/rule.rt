//! What is true of the lock at every moment.
//! Its three words are the next ticket, the ticket that is served, and the number of committed entries.
//! Its slot holds the state. The slot is empty while the pass that has the turn holds the state.
use crate::kept::Kept;
use atomic_table::{Seat, Table, TableRule};
use std::alloc::Global;
use std::collections::LinkedList;
use std::snapshot::Snapshot;

/// The most passes that a lock can have in its life, including the root.
pub const MOST_PASSES: u16 = 256;

/// The index of the word for the next ticket.
pub const TICKET: usize = 0;
/// The index of the word for the ticket that has the turn, or will have it next.
pub const SERVING: usize = 1;
/// The index of the word for the number of committed entries.
pub const HISTORY: usize = 2;

/// The stage that a pass is at.
pub enum Stage {
    /// Joined into the root.
    Spent,
    /// Outside, with no ticket.
    Away,
    /// Waiting with this ticket.
    Waiting(u64),
    /// In the turn of this ticket.
    Inside(u64),
}

/// What a pass knows. It serves proofs alone: no code makes a value of it.
pub struct View<E, F> {
    /// The stage that the pass is at.
    pub stage: Stage,
    /// The number that its entries have.
    pub number: u64,
    /// The list as far as the pass has seen it.
    pub seen: LinkedList<E>,
    /// Its own entries.
    pub own: LinkedList<E>,
    /// The fixed part of the state. A joined pass has none.
    pub fixed: Option<F>,
    /// For the root: how many numbers were given, including its own.
    pub given: u64,
    /// For the root: the number of each pass that was joined, with the pass's entries.
    pub joined: LinkedList<(u64, LinkedList<E>)>,
    /// For the root: what the pass joined last had seen, until the two lists are compared.
    pub told: LinkedList<E>,
}

/// The rule that the table of a lock obeys.
pub struct Law;

impl<S: Kept> TableRule<Option<S>, View<S::Entry, S::Fixed>, Snapshot<S>> for Law {
    ghost use Rattle.turn_lock.specs.Rule.{Ruled, root_view};

    ghost holds = { λ key s. Ruled S.entries S.fixed S.caller (S.fixed key.value) s };

    ghost first = { λ key. root_view (S.fixed key.value) };
}

/// The table of a lock.
pub type LockTable<S> = Table<
    Option<S>,
    View<<S as Kept>::Entry, <S as Kept>::Fixed>,
    Snapshot<S>,
    Law,
    Global,
>;

/// What a pass holds at the table of a lock.
pub type LockSeat<S> = Seat<Option<S>, View<<S as Kept>::Entry, <S as Kept>::Fixed>>;
