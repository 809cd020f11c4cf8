//! Stake limits.
ghost use Rattle.std.specs.Prelude.{◌≡◌, ◌≤◌, IfOk};
ghost use Rattle.scan_types.specs.Ranges.{IsLimitRange};
ghost use Rattle.odds_fixed.specs.Faults.{limit_or_fault};

use crate::faults::LimitFault;
use crate::number::read_number;
use scan_types::MOST_LIMIT;

/// The least stake limit, in minor units: a limit of 0 would offer nothing.
const LEAST_LIMIT: u32 = 1;

/// A stake limit in minor units: 1 to 9 digits, from 1 to `MOST_LIMIT`. `BadLimit` for any other form, `LimitRange` for
/// any other number. The rule is `limit_of` of `number_definitions`. O(text); takes no memory.
pub fn read_limit(text: &[u8]) -> Result<u32, LimitFault>
    ensures value { result ≡ limit_or_fault text.now }
    ensures range { IfOk result IsLimitRange }
{
    match read_number(text, 9) {
        None => Err(LimitFault::BadLimit),
        Some(limit) => {
            if LEAST_LIMIT <= limit && limit <= MOST_LIMIT {
                Ok(limit)
            } else {
                Err(LimitFault::LimitRange)
            }
        }
    }
}
