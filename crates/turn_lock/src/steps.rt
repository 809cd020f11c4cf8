//! The steps of a turn, on the words and the slot.
ghost use Rattle.std.specs.Prelude.{◌≡◌, ℕ, ◌∷◌, ◌++◌, [], map};
ghost use mathlib.Core.List.{IsPrefix};
ghost use Rattle.turn_lock.specs.declared.rule.Stage.TheVariants.{Away};
ghost use Rattle.turn_lock.specs.Rule.{has_turn};
ghost use Rattle.turn_lock.specs.Calls.{calls_of};
ghost use Rattle.turn_lock.specs.Steps.{Enters, with_entries};
ghost use Rattle.turn_lock.specs.Passes.{known, with_entry, fixed_part, lock_id, IsPassOf, IsHeldBy};

use crate::kept::Kept;
use crate::lock::TurnLock;
use crate::pass::Pass;
use crate::plays::{Adds, Commit, Draw, Look, PassOn};
use crate::rule::{HISTORY, LockSeat, SERVING, TICKET};
use std::marker::Brand;
use std::sync::Wait;
use std::thread;

impl<S: Kept> TurnLock<S> {
    // Draws a ticket, waits until it is served, and takes the state.
    pub(crate) fn take_state<R: Wait>(&self, rt: &R, pass: &mut Pass<S>) -> S
        requires { IsPassOf self.now pass.old }
        ensures held { IsHeldBy self.now pass.new }
        ensures seen { IsPrefix (known pass.old).seen (S.entries result) }
        ensures own { calls_of S.caller (known pass.old).number (S.entries result) ≡ (known pass.old).own }
        ensures fixed { S.fixed result ≡ fixed_part S.fixed self.now }
        ensures known { known pass.new ≡ record (known pass.old) { seen = S.entries result } }
    {
        self.wait_for_turn(rt, &mut pass.seat);
        self.pick_up(&mut pass.seat)
    }

    fn wait_for_turn<R: Wait>(&self, rt: &R, seat: &mut LockSeat<S>)
        requires { (seat.old.table_id ≡ lock_id self.now) × (seat.old.me.0.stage ≡ Away) }
        ensures same { seat.new.table_id ≡ seat.old.table_id }
        ensures turn { (t : ℕ) × Enters S.entries S.fixed S.caller seat.old.me t seat.new.me }
    {
        let shared = &self.table.shared;
        let ticket = shared.fetch_add::<Draw>(seat, TICKET, 1);
        for _ in rt.forever() {
            if shared.load::<Look>(seat, SERVING) == ticket {
                return;
            }
            thread::yield_now();
        }
        unreachable!()
    }

    fn pick_up(&self, seat: &mut LockSeat<S>) -> S
        requires same { seat.old.table_id ≡ lock_id self.now }
        requires home { (x : S) × (seat.old.me.1 ≡ (0, Some x) ∷ []) }
        ensures same { seat.new.table_id ≡ seat.old.table_id }
        ensures state { seat.old.me.1 ≡ (0, Some result) ∷ [] }
        ensures out { seat.new.me ≡ (seat.old.me.0, (0, None) ∷ []) }
    {
        self.table.shared.exchange(seat, 0, None).unwrap()
    }

    // Adds the last entry of the state in hand to the history.
    pub(crate) fn add_last(&self, pass: &mut Pass<S>, state: &S)
        requires held { IsHeldBy self.now pass.old }
        requires one { (e : S.Entry)
            × (S.entries state.now ≡ (known pass.old).seen ++ e ∷ [])
            × (S.caller e ≡ (known pass.old).number) }
        ensures held { IsHeldBy self.now pass.new }
        ensures entry { (e : S.Entry)
            → S.entries state.now ≡ (known pass.old).seen ++ e ∷ []
            → known pass.new ≡ with_entry (known pass.old) e }
    {
        self.commit::<Brand>(&mut pass.seat, state);
    }

    // Adds the entry in one step on the history word. From then on it is added for all callers.
    fn commit<A: Adds<S::Entry>>(&self, seat: &mut LockSeat<S>, state: &S)
        requires same { seat.old.table_id ≡ lock_id self.now }
        requires inside { has_turn seat.old.me.0.stage ≡ 1 }
        requires all { S.entries state.now ≡ seat.old.me.0.seen ++ A.added }
        requires one { (e : S.Entry) × (A.added ≡ e ∷ []) × (S.caller e ≡ seat.old.me.0.number) }
        ensures same { seat.new.table_id ≡ seat.old.table_id }
        ensures added { seat.new.me ≡ (with_entries seat.old.me.0 A.added, seat.old.me.1) }
    {
        // The list's length fits in a `u64`, so the word does not wrap.
        let _length = state.count();
        self.table.shared.fetch_add::<Commit<A>>(seat, HISTORY, 1);
    }

    // Puts the state back into the slot, and passes the turn on.
    pub(crate) fn put_home(&self, pass: &mut Pass<S>, state: S)
        requires held { IsHeldBy self.now pass.old }
        requires committed { S.entries state ≡ (known pass.old).seen }
        requires fixed { S.fixed state ≡ fixed_part S.fixed self.now }
        ensures of { IsPassOf self.now pass.new }
        ensures known { known pass.new ≡ known pass.old }
    {
        let shared = &self.table.shared;
        shared.exchange(&mut pass.seat, 0, Some(state));
        shared.fetch_add::<PassOn>(&mut pass.seat, SERVING, 1);
    }
}
