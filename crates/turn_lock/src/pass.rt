ghost use Rattle.std.specs.Prelude.{◌≡◌};

use crate::kept::Kept;
use crate::rule::LockSeat;

/// What a caller knows of a lock: its number, the list as far as it has seen it, and its own entries.
/// A pass cannot be copied. At run time it holds its number and a count, which only the root uses.
#[derive(Drop)]
pub struct Pass<S: Kept> {
    /// The pass's seat at the table.
    pub(crate) seat: LockSeat<S>,
    /// The number that its entries have: 0 for the root.
    pub(crate) number: u8,
    /// For the root: how many numbers were given, including its own. For other passes: 0.
    pub(crate) given: u16,
    ghost numbered: { number ≡ seat.me.0.number },
    ghost counted: { given ≡ seat.me.0.given },
}

impl<S: Kept> Pass<S> {
    ghost use Rattle.turn_lock.specs.Passes.{known};

    /// Returns the number that this pass's entries have: 0 for the root.
    pub fn number(&self) -> u8
        ensures { result ≡ (known self.now).number }
    {
        self.number
    }
}
