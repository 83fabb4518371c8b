ghost use Rattle.std.specs.Prelude.{◌≡◌};

use crate::child_pipe::{own_output, write_once};
use crate::counts::{Count, counted};
use pl_world::{Sink, Trouble};
use std::alloc::Global;
use std::process::ChildStdin;

/// This program's standard output as a sink. A write where nobody reads is a fault, and raises no signal.
#[derive(Debug, Drop)]
pub struct StandardOutput {
    output: Option<ChildStdin>,
    faults: Count,
}

impl StandardOutput {
    /// Where there is no standard output each write fails.
    pub fn new(rt: HostRuntime) -> StandardOutput
        ensures no_faults { ⟦<StandardOutput as Sink>⟧.faults result ≡ 0 }
    {
        StandardOutput {
            output: own_output(rt),
            faults: Count::zero(),
        }
    }

    /// How many writes have failed.
    pub fn faults(&self) -> u64
        ensures { result ≡ ⟦<StandardOutput as Sink>⟧.faults self.now }
    {
        self.faults.value()
    }
}

impl Sink for StandardOutput {
    ghost use Rattle.std.specs.Prelude.{None};

    ghost faults = { λ sink. sink.faults.value };

    ghost written = { λ _. None };

    fn write(&mut self, _alloc: Global, bytes: &[u8]) -> Result<u64, Trouble> {
        let written = write_once(self.output.as_mut(), bytes);
        let count = counted(&mut self.faults, written)?;
        Ok(count as u64)
    }
}
