//! A source for each name.
ghost use Rattle.std.specs.Prelude.{◌≡◌, ◌≤◌, map, length, All, IfOk, string_bytes};
ghost use Rattle.std.specs.VecDeque.{deque_len};
ghost use Rattle.desk_definitions.specs.Seen.{opener_seen};
ghost use Rattle.desk_definitions.specs.Opening.{AreOpened, told_bytes};
ghost use Rattle.desk_opening.specs.Openings.{OpensSo};

use desk_io::{OpenFault, Opener};
use std::alloc::Global;
use std::collections::VecDeque;

/// Why the feeds were not opened.
pub enum NotOpened {
    /// The feed of this number, the first such, cannot be opened.
    Feed(u8),
    /// No memory is left.
    WantOfMemory,
}

/// Opens a source for each name, in order, up to the first that cannot be opened.
pub fn open_all<O: Opener>(
    alloc: Global,
    names: &[String],
    opener: &mut O,
) -> Result<VecDeque<O::S>, NotOpened>
    requires { length names.now ≤ 8 }
    ensures each { IfOk result (λ sources. deque_len sources ≡ length names.now) }
    ensures opened { IfOk result (λ sources.
        AreOpened O.S.left O.S.faults (told_bytes (O.told opener.old) (map string_bytes names.now)) 0 sources.items) }
    ensures opener { OpensSo (map string_bytes names.now) (opener_seen O.told O.promises O.opens_told O.faults opener.old opener.new) result }
    ensures promised { O.promises opener.old → IfOk result (λ sources. All O.S.never_fails sources.items) }
{
    let Ok(mut sources) = VecDeque::with_capacity(alloc, names.len()) else {
        return Err(NotOpened::WantOfMemory);
    };
    for (number, name) in names.iter().enumerate() {
        match opener.open_feed(name.as_str()) {
            Ok(source) => {
                if sources.push_back(source).is_err() {
                    return Err(NotOpened::WantOfMemory);
                }
            }
            Err(OpenFault::Failed) => return Err(NotOpened::Feed(number as u8)),
            Err(OpenFault::WantOfMemory) => return Err(NotOpened::WantOfMemory),
        }
    }
    Ok(sources)
}
