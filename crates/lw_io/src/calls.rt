// Calls that fail by their numbers, for the forms in memory.
ghost use Rattle.std.specs.Prelude.{◌≡◌, ◌↔◌, IsTrue, Contains, MatchBool};
ghost use Rattle.lw_io.specs.Causes.{next_number, Faulted};

/// The calls that there were, and the numbers of those that fail, counted from 1.
#[derive(Drop)]
pub(crate) struct Calls {
    failing: Vec<u64>,
    made: u64,
    faults: u64,
}

impl Calls {
    /// No call was made yet.
    pub(crate) fn new(failing: Vec<u64>) -> Calls
        ensures failing { result.failing.items ≡ failing.items }
        ensures made { result.made ≡ 0 }
        ensures faults { result.faults ≡ 0 }
    {
        Calls {
            failing,
            made: 0,
            faults: 0,
        }
    }

    /// Counts a call, and says whether it fails.
    pub(crate) fn next_fails(&mut self) -> bool
        ensures number { self.new.made ≡ next_number self.old.made }
        ensures listed { IsTrue result ↔ Contains self.new.failing.items self.new.made }
        ensures failing { self.new.failing.items ≡ self.old.failing.items }
        ensures cause { MatchBool result (Faulted self.old.faults self.new.faults)
            (self.new.faults ≡ self.old.faults) }
    {
        self.made = self.made.saturating_add(1);
        let fails = self.failing.contains(&self.made);
        if fails {
            self.faults = self.faults.saturating_add(1);
        }
        fails
    }

    /// How many calls have failed.
    pub(crate) fn faults(&self) -> u64
        ensures { result ≡ self.now.faults }
    {
        self.faults
    }
}
