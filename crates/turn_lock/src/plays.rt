//! What each step tells the pass that makes it.
ghost use Rattle.std.specs.Prelude.{List, []};

use crate::kept::Kept;
use crate::rule::View;
use atomic_table::{Join, Play, Split};
use std::marker::{Brand, PhantomData};

/// Draws a ticket.
pub struct Draw;

impl<S: Kept> Play<Option<S>, View<S::Entry, S::Fixed>> for Draw {
    ghost use Rattle.turn_lock.specs.Steps.{drew};

    ghost then = { drew };
}

/// Looks at which ticket is served. If it is the pass's own, the pass has the turn and holds the slot.
pub struct Look;

impl<S: Kept> Play<Option<S>, View<S::Entry, S::Fixed>> for Look {
    ghost use Rattle.turn_lock.specs.Steps.{looked};

    ghost then = { looked S.entries S.fixed S.caller };
}

/// The entries that one step adds. Each call of `commit` chooses them.
pub trait Adds<E> {
    ghost added: { List E };
}

impl<E> Adds<E> for Brand {
    ghost added = { [] };
}

/// Adds an entry to the history.
pub struct Commit<A> {
    adds: PhantomData<A>,
}

impl<S: Kept, A: Adds<S::Entry>> Play<Option<S>, View<S::Entry, S::Fixed>> for Commit<A> {
    ghost use Rattle.turn_lock.specs.Steps.{committed};

    ghost then = { committed A.added };
}

/// Passes the turn on.
pub struct PassOn;

impl<S: Kept> Play<Option<S>, View<S::Entry, S::Fixed>> for PassOn {
    ghost use Rattle.turn_lock.specs.Steps.{passed_on};

    ghost then = { passed_on };
}

/// Gives a new pass its number.
pub struct Number;

impl<E, F> Split<View<E, F>> for Number {
    ghost use Rattle.turn_lock.specs.Steps.{after_split, newcomer};

    ghost left = { after_split };

    ghost right = { newcomer };
}

/// Takes in a pass: its number, its entries and what it had seen.
pub struct TakeIn;

impl<E, F> Join<View<E, F>> for TakeIn {
    ghost use Rattle.turn_lock.specs.Steps.{after_join, spent};

    ghost both = { after_join };

    ghost spent = { spent };
}

/// Compares the lists that two passes had seen, and keeps the longer one.
pub struct Compare;

impl<S: Kept> Play<Option<S>, View<S::Entry, S::Fixed>> for Compare {
    ghost use Rattle.turn_lock.specs.Steps.{compared};

    ghost then = { compared };
}
