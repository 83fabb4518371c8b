ghost use Rattle.std.specs.Prelude.{◌≡◌, ◌+◌, ◌-◌, ◌^◌, ◌≤◌, ◌==◌, [], min, if◌then◌else◌};
ghost use Rattle.std.specs.List.{list_any};

/// The calls that are to fail, by their index from 0, and how many have failed.
#[derive(Debug, Drop)]
pub struct FailingCalls {
    fails: Vec<u64>,
    calls: u64,
    faults: u64,
    ghost none_failed: { fails.items ≡ [] → faults ≡ 0 },
}

impl FailingCalls {
    pub fn new(fails: Vec<u64>) -> FailingCalls
        ensures fails { result.fails.items ≡ fails.items }
        ensures no_faults { result.faults ≡ 0 }
    {
        FailingCalls {
            fails,
            calls: 0,
            faults: 0,
        }
    }

    /// How many have failed.
    pub fn faults(&self) -> u64
        ensures { result ≡ self.now.faults }
    {
        self.faults
    }

    /// The calls that are to fail.
    pub fn fails(&self) -> &[u64]
        ensures listed { result.now ≡ self.now.fails.items }
        ensures none_failed { result.now ≡ [] → self.now.faults ≡ 0 }
    {
        self.fails.as_slice()
    }

    /// The index of the next call.
    pub fn calls(&self) -> u64
        ensures { result ≡ self.now.calls }
    {
        self.calls
    }

    /// Counts a call, and says whether it is to fail; if so that is counted too.
    pub fn next_fails(&mut self) -> bool
        ensures listed { result ≡ list_any (λ call. call == self.old.calls) self.old.fails.items }
        ensures counted { self.new.calls ≡ min (self.old.calls + 1) (2 ^ 64 - 1) }
        ensures faults { self.new.faults ≡ (if result then min (self.old.faults + 1) (2 ^ 64 - 1) else self.old.faults) }
        ensures faults_never_fall { self.old.faults ≤ self.new.faults }
        ensures fails_stay { self.new.fails.items ≡ self.old.fails.items }
    {
        let failing = self.fails.contains(&self.calls);
        self.calls = self.calls.saturating_add(1);
        if failing {
            self.faults = self.faults.saturating_add(1);
        }
        failing
    }
}
