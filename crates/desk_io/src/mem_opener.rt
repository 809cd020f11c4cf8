//! Files in memory and their opener.
ghost use Rattle.std.specs.Prelude.{◌≡◌, ◌≢◌, ◌↔◌, ◌⊎◌, ◌<◌, ◌≤◌, ◌^◌, [], Some, List, ℕ, position, if◌then◌else◌, is_err, Contains, IfOk, IsErr, IsErrOf, OnOk, OnErr};
ghost use Rattle.std.specs.Str.{bytes_eq};
ghost use Rattle.desk_io.specs.Faults.{raised};
ghost use Rattle.desk_io.specs.MemOpener.{files_under, bytes_under, AllNeverFail, OpensFirstFile};

use crate::failing_calls::FailingCalls;
use crate::mem_file::MemFile;
use crate::{MemSource, OpenFault, Opener};
use std::marker::Model;

/// Opens files in memory, each once, and those of one name in the order of the list. Openings fail by
/// their number, and where no file of the name is left. An opening takes no memory.
#[derive(Drop)]
pub struct MemOpener {
    files: Vec<MemFile>,
    calls: FailingCalls,
}

impl Model for MemOpener {
    ghost use Rattle.desk_io.specs.MemOpener.{OpenerState};

    ghost Value = { OpenerState };

    ghost view = { λ o. record {
      files = o.files.items;
      failing = o.calls.failing.items;
      openings = o.calls.made;
      faults = o.calls.faults;
    } };
}

impl MemOpener {
    /// An opener of these files. `failing` has the numbers, from 1 on, of the openings that fail.
    pub fn new(files: Vec<MemFile>, failing: Vec<u32>) -> MemOpener
        ensures { result ≡ record {
          files = files.items;
          failing = failing.items;
          openings = 0;
          faults = 0;
        } }
    {
        MemOpener {
            files,
            calls: FailingCalls::new(failing),
        }
    }

    fn first_under(&self, name: &str) -> Option<usize>
        ensures { result ≡ position (λ file. bytes_eq file.name name.now) self.now.files }
    {
        self.files.iter().position(|file| file.name() == name)
    }
}

impl Opener for MemOpener {
    type S = MemSource;

    ghost faults = { λ o. o.faults };

    ghost told = { λ o name. Some (bytes_under name o.files) };

    ghost promises = { λ o. AllNeverFail o.files };

    ghost opens_told = { λ o. o.failing ≡ [] };

    fn open_feed(&mut self, name: &str) -> Result<MemSource, OpenFault>
        // Exactly the openings with these numbers fail, and those of a name that has no file left.
        // None wants memory.
        ensures counted { self.new.openings ≡ raised self.old.openings }
        ensures fails { IsErr result ↔
            (Contains self.old.failing self.new.openings ⊎ (files_under name.now self.old.files ≡ [])) }
        ensures only_failed { OnErr result (IsErrOf result OpenFault.Failed) }
        ensures faults { self.new.faults ≡
            (if is_err result then raised self.old.faults else self.old.faults) }
        ensures faults_kept { self.old.faults ≤ self.new.faults }
        ensures faults_fit { self.new.faults < 2 ^ 64 }
        ensures same_files { OnErr result (self.new.files ≡ self.old.files) }

        // Each of the others opens the first file of the name.
        ensures first_file { IfOk result (OpensFirstFile name.now self.old.files self.new.files) }
        ensures other_files { OnOk result ((other : List ℕ) → other ≢ name.now →
            files_under other self.new.files ≡ files_under other self.old.files) }

        ensures promised { AllNeverFail self.old.files →
            IfOk result (λ source. source.failing ≡ []) }
        ensures promise_kept { AllNeverFail self.old.files → AllNeverFail self.new.files }
        ensures same_failing { self.new.failing ≡ self.old.failing }
    {
        let fails = self.calls.next_fails();
        match self.first_under(name) {
            Some(place) if !fails => Ok(self.files.remove(place).into_source()),
            _ => {
                self.calls.add_fault();
                Err(OpenFault::Failed)
            }
        }
    }
}
