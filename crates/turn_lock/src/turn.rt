ghost use Rattle.std.specs.Prelude.{◌≡◌, ◌+◌, ◌∷◌, ◌++◌, []};
ghost use Rattle.std.specs.Borrow.{Lends, sem};
ghost use mir.Syntax.{named};

use crate::kept::Kept;
use crate::lock::TurnLock;
use crate::pass::Pass;

/// The time during which one pass has the state. It is not `Drop`: `leave` ends it.
pub struct Turn<'a, S: Kept> {
    /// The pass whose turn it is.
    pub(crate) pass: &'a mut Pass<S>,
    /// The lock that this turn belongs to.
    pub(crate) lock: &'a TurnLock<S>,
    /// The state, which the turn holds.
    pub(crate) state: S,
}

impl<'a, S: Kept> Turn<'a, S> {
    ghost use Rattle.turn_lock.specs.Passes.{known, with_entry, fixed_part, IsPassOf};
    ghost use Rattle.turn_lock.specs.Turns.{knows, in_hand, committed, state_of, lock_of, pass_name, with_state, IsTurn};
    ghost use Rattle.turn_lock.specs.contracts.turn.Turn.{the_row};

    /// Returns the state that the turn holds. Other callers see what is written through it after `leave`.
    pub fn state(&mut self) -> &mut S
        ensures* writes_back { let turn = the_row (record { mir = named 1; lft = [] }) S.row S.Entry.row S.Fixed.row S.Kept in
            sem 𝓛 (Lends turn S.row self.entry result (with_state self.old)) }
        ensures value { result.now ≡ state_of self.old }
    {
        &mut self.state
    }

    /// Commits the last entry of the state's list. It must have the pass's number, and all entries before it
    /// must have been committed. One step on the history word adds it for all callers.
    pub fn commit_one(&mut self)
        requires turn { IsTurn self.old }
        requires one { (e : S.Entry)
            × (in_hand self.old ≡ committed self.old ++ e ∷ [])
            × (S.caller e ≡ (knows self.old).number) }
        ensures turn { IsTurn self.new × (lock_of self.new ≡ lock_of self.old) }
        ensures pass { pass_name self.new ≡ pass_name self.old }
        ensures state { state_of self.new ≡ state_of self.old }
        ensures entry { (e : S.Entry)
            → in_hand self.old ≡ committed self.old ++ e ∷ []
            → knows self.new ≡ with_entry (knows self.old) e }
    {
        let pass = &mut *self.pass;
        self.lock.add_last(pass, &self.state);
    }

    /// Puts the state back into the lock and passes the turn on. The pass has then seen the whole list.
    /// Every entry of the list must have been committed, and the fixed part must not have changed.
    pub fn leave(self)
        requires turn { IsTurn self }
        requires committed { in_hand self ≡ committed self }
        requires fixed { S.fixed (state_of self) ≡ fixed_part S.fixed (lock_of self) }
        ensures of { IsPassOf (lock_of self.entry) self.exit.0.now }
        ensures knows { known self.exit.0.now ≡ knows self.entry }
    {
        let Turn { pass, lock, state } = self;
        lock.put_home(pass, state);
    }
}
