ghost use Rattle.std.specs.Prelude.{◌≡◌, ◌≤◌, IfOk, Ok, OnErr};
ghost use Rattle.pl_world.specs.Counts.{Rose};
ghost use Rattle.pl_world.specs.Causes.{OnFailed};

use pl_world::{Failed, Trouble};
use std::io::{self, ErrorKind};

/// A count that stops at its last value.
#[derive(Clone, Copy, Debug)]
pub struct Count {
    value: u64,
}

impl Count {
    pub fn zero() -> Count
        ensures { result.value ≡ 0 }
    {
        Count { value: 0 }
    }

    pub fn value(&self) -> u64
        ensures { result ≡ self.now.value }
    {
        self.value
    }

    pub fn rise(&mut self)
        ensures rose { Rose self.old.value self.new.value }
        ensures never_falls { self.old.value ≤ self.new.value }
    {
        self.value = self.value.saturating_add(1);
    }
}

/// The same answer; an error counts as a fault.
pub fn counted<T: Drop>(faults: &mut Count, answer: io::Result<T>) -> Result<T, Failed>
    ensures same { IfOk result (λ value. answer ≡ Ok value) }
    ensures rose { OnErr result (Rose faults.old.value faults.new.value) }
    ensures never_falls { faults.old.value ≤ faults.new.value }
{
    match answer {
        Ok(value) => Ok(value),
        Err(_) => {
            faults.rise();
            Err(Failed)
        }
    }
}

/// The same answer; an error counts as a fault, unless it is want of memory.
pub fn counted_or_memory<T: Drop>(faults: &mut Count, answer: io::Result<T>) -> Result<T, Trouble>
    ensures same { IfOk result (λ value. answer ≡ Ok value) }
    ensures rose { OnFailed result (Rose faults.old.value faults.new.value) }
    ensures never_falls { faults.old.value ≤ faults.new.value }
{
    match answer {
        Ok(value) => Ok(value),
        Err(error) if error.kind() == ErrorKind::OutOfMemory => Err(Trouble::OutOfMemory),
        Err(_) => {
            faults.rise();
            Err(Trouble::Failed)
        }
    }
}
