ghost use Rattle.std.specs.Prelude.{◌≡◌};
ghost use Rattle.coherence_lp.specs.declared.fault.ReadingFault.TheVariants.{WantOfMemory as out_of_memory};

use finding_definitions::WideAt;
use scan_types::WantOfMemory;
use std::alloc::{AllocError, AllocFailed};
use thiserror::Error;

/// Why a reading gives no value.
#[derive(Debug, Drop, Error)]
pub enum ReadingFault {
    /// A number is too wide for a finding, first at this place.
    #[error("a number is too wide")]
    Wide(WideAt),
    /// No memory is left.
    #[error("out of memory")]
    WantOfMemory,
}

impl From<WantOfMemory> for ReadingFault {
    ghost from_gives = { λ _ e. e ≡ out_of_memory };

    fn from(_e: WantOfMemory) -> ReadingFault {
        ReadingFault::WantOfMemory
    }
}

impl From<AllocError> for ReadingFault {
    ghost from_gives = { λ _ e. e ≡ out_of_memory };

    fn from(_e: AllocError) -> ReadingFault {
        ReadingFault::WantOfMemory
    }
}

impl<T: Drop> From<AllocFailed<T>> for ReadingFault {
    ghost from_gives = { λ _ e. e ≡ out_of_memory };

    fn from(_e: AllocFailed<T>) -> ReadingFault {
        ReadingFault::WantOfMemory
    }
}
