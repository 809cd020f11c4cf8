ghost use Rattle.std.specs.Prelude.{◌≡◌, ℕ, ◌+◌, ◌<◌, [], ◌∷◌, ◌++◌, length, IfOk};
ghost use mathlib.Core.List.{IsPrefix};
ghost use Rattle.turn_lock.specs.declared.rule.TheConstants.{MOST_PASSES};

use crate::kept::Kept;
use crate::pass::Pass;
use crate::plays::{Compare, Number, TakeIn};
use crate::rule::{LockTable, TICKET};
use crate::turn::Turn;
use atomic_table::{Refused, Table};
use std::alloc::Global;
use std::snapshot::Snapshot;
use std::sync::Wait;
use want_of_memory::WantOfMemory;

/// The lock, which holds the state. Threads share it by reference, and each thread has a pass of its own.
#[derive(Drop)]
pub struct TurnLock<S: Kept> {
    /// Three words, and one slot for the state.
    pub(crate) table: LockTable<S>,
    ghost words: { table.shared.table_id.words ≡ 3 },
    ghost slots: { table.shared.table_id.slots ≡ 1 },
}

impl<S: Kept> TurnLock<S> {
    ghost use Rattle.turn_lock.specs.Calls.{calls_of, kept_of};
    ghost use Rattle.turn_lock.specs.Passes.{known, fresh, after_split, after_join, fixed_part, IsPassOf};
    ghost use Rattle.turn_lock.specs.Turns.{knows, in_hand, state_of, lock_of, pass_name, IsTurn};

    /// Returns a lock for a state whose list is empty, and the lock's root pass, whose number is 0.
    /// Only this call allocates. If no memory is left, it drops the state.
    pub fn new(alloc: Global, state: S) -> Result<(TurnLock<S>, Pass<S>), WantOfMemory>
        requires { S.entries state ≡ [] }
        ensures of { IfOk result (λ r. IsPassOf r.0 r.1) }
        ensures root { IfOk result (λ r. known r.1 ≡ fresh 0 1 []) }
        ensures fixed { IfOk result (λ r. fixed_part S.fixed r.0 ≡ S.fixed state) }
    {
        let about = Snapshot::of(&state);
        let mut slots = Vec::with_capacity(alloc, 1)?;
        let pushed = slots.push(Some(state));
        prove!(pushed.is_ok());
        match Table::new(alloc, &[0, 0, 0], slots, &about) {
            Ok((table, seat)) => Ok((
                TurnLock { table },
                Pass {
                    seat,
                    number: 0,
                    given: 1,
                },
            )),
            Err(Refused { slots: _ }) => Err(WantOfMemory),
        }
    }

    /// Returns a pass with the next number, for another thread. The pass has seen what the root has seen.
    /// A lock has at most `MOST_PASSES` passes.
    pub fn split(&self, root: &mut Pass<S>) -> Pass<S>
        requires of { IsPassOf self.now root.old }
        requires root { (known root.old).number ≡ 0 }
        requires few { (known root.old).given < MOST_PASSES }
        ensures of { IsPassOf self.now root.new × IsPassOf self.now result }
        ensures root { known root.new ≡ after_split (known root.old) }
        ensures new { known result ≡ fresh (known root.old).given 0 (known root.old).seen }
    {
        let number = root.given;
        root.given = number + 1;
        let seat = self.table.shared.split_seat::<Number>(&mut root.seat);
        Pass {
            seat,
            number: number as u8,
            given: 0,
        }
    }

    /// Takes in a pass that `split` returned. The root keeps that pass's number and entries.
    /// The root has then seen the longer of the lists that the two passes had seen.
    pub fn join(&self, root: &mut Pass<S>, other: Pass<S>)
        requires of { IsPassOf self.now root.old × IsPassOf self.now other }
        requires root { (known root.old).number ≡ 0 }
        ensures of { IsPassOf self.now root.new }
        ensures root { known root.new ≡ after_join (known root.old) (known other) }
        ensures seen { IsPrefix (known root.old).seen (known root.new).seen }
        ensures told { IsPrefix (known other).seen (known root.new).seen }
    {
        let Pass {
            seat,
            number: _,
            given: _,
        } = other;
        self.table.shared.join_seat::<TakeIn>(&mut root.seat, seat);
        self.table.shared.load::<Compare>(&mut root.seat, TICKET);
    }

    /// Waits for the turn, and returns it with the state. `leave` ends the turn.
    /// The state's list begins with all that the pass had seen. Its entries with the pass's number are
    /// exactly the pass's own.
    /// The call may wait for ever: nothing is proved about how long it waits.
    pub fn enter<'a, R: Wait>(&'a self, rt: &R, pass: &'a mut Pass<S>) -> Turn<'a, S>
        requires { IsPassOf self.now pass.old }
        ensures turn { IsTurn result × (lock_of result ≡ self.now) }
        ensures pass { pass_name result ≡ pass.entry.ghost_name }
        ensures seen { IsPrefix (known pass.old).seen (in_hand result) }
        ensures own { calls_of S.caller (known pass.old).number (in_hand result) ≡ (known pass.old).own }
        ensures fixed { S.fixed (state_of result) ≡ fixed_part S.fixed self.now }
        ensures knows { knows result ≡ record (known pass.old) { seen = in_hand result } }
    {
        let state = self.take_state(rt, pass);
        Turn {
            pass,
            lock: self,
            state,
        }
    }

    /// Takes the state out of the lock. Every pass that was split off must have been joined.
    /// The list's entries with each number are those that the root keeps under it, and there are no others.
    pub fn close(self, root: Pass<S>) -> S
        requires of { IsPassOf self root }
        requires root { (known root).number ≡ 0 }
        requires joined { length (known root).joined + 1 ≡ (known root).given }
        ensures seen { IsPrefix (known root).seen (S.entries result) }
        ensures fixed { S.fixed result ≡ fixed_part S.fixed self }
        ensures calls { (n : ℕ)
            → calls_of S.caller n (S.entries result)
            ≡ kept_of n ((0, (known root).own) ∷ (known root).joined) }
    {
        let Pass {
            seat,
            number: _,
            given: _,
        } = root;
        let mut closed = self.table.close_with(seat);
        let state = closed.take(0);
        closed.free();
        state.unwrap()
    }
}
