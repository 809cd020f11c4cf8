ghost use Rattle.std.specs.Prelude.{◌≡◌};
ghost use Rattle.certificates.specs.declared.stop.Stop.TheVariants.{WantOfMemory};

use std::alloc::{AllocError, AllocFailed};

/// Why reading stopped.
#[derive(Debug, Drop)]
pub(crate) enum Stop {
    /// The text can go on no further: so many bytes are left.
    Left(usize),
    /// No memory is left.
    WantOfMemory,
}

impl From<AllocError> for Stop {
    ghost from_gives = { λ _ e. e ≡ WantOfMemory };

    fn from(_e: AllocError) -> Stop {
        Stop::WantOfMemory
    }
}

impl<T: Drop> From<AllocFailed<T>> for Stop {
    ghost from_gives = { λ _ e. e ≡ WantOfMemory };

    fn from(_e: AllocFailed<T>) -> Stop {
        Stop::WantOfMemory
    }
}
