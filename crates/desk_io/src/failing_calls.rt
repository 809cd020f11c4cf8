//! The calls of an object in memory, of which some fail on purpose.
ghost use Rattle.std.specs.Prelude.{◌≡◌, ◌↔◌, ◌<◌, ◌^◌, Contains, IsTrue};
ghost use Rattle.desk_io.specs.Faults.{raised};

/// Which calls fail, by their numbers from 1 on, and how many calls and faults there were.
#[derive(Drop)]
pub(crate) struct FailingCalls {
    /// The numbers, from 1 on, of the calls that fail.
    pub(crate) failing: Vec<u32>,
    /// How many calls were made. It stands still at `u64::MAX`.
    pub(crate) made: u64,
    /// How many of them failed. It stands still at `u64::MAX`.
    pub(crate) faults: u64,
    ghost faults_fit: { faults < 2 ^ 64 },
}

impl FailingCalls {
    /// No call was made yet.
    pub(crate) fn new(failing: Vec<u32>) -> FailingCalls
        ensures failing { result.failing ≡ failing }
        ensures made { result.made ≡ 0 }
        ensures faults { result.faults ≡ 0 }
    {
        FailingCalls {
            failing,
            made: 0,
            faults: 0,
        }
    }

    /// Counts one more call, and tells whether it is one of those that fail.
    pub(crate) fn next_fails(&mut self) -> bool
        ensures counted { self.new.made ≡ raised self.old.made }
        ensures fails { IsTrue result ↔ Contains self.old.failing.items self.new.made }
        ensures failing { self.new.failing ≡ self.old.failing }
        ensures faults { self.new.faults ≡ self.old.faults }
        ensures faults_fit { self.new.faults < 2 ^ 64 }
    {
        self.made = self.made.saturating_add(1);
        let made = self.made;
        self.failing.iter().any(|number| u64::from(*number) == made)
    }

    /// Counts one more fault.
    pub(crate) fn add_fault(&mut self)
        ensures faults { self.new.faults ≡ raised self.old.faults }
        ensures failing { self.new.failing ≡ self.old.failing }
        ensures made { self.new.made ≡ self.old.made }
    {
        self.faults = self.faults.saturating_add(1);
    }
}
