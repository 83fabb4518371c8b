ghost use Rattle.std.specs.Prelude.{◌≡◌, ◌<◌, ◌≤◌, length, IfOk};
ghost use Rattle.pl_world.specs.Told.{IsFresh};

use crate::counts::{Count, counted};
use crate::file_store::FileCover;
use pl_world::{Failed, Pipe, Trouble};
use std::alloc::Global;
use std::io::{self, ErrorKind, Read, Write};
use std::os::fd::AsFd;
use std::process::{ChildStdin, ChildStdout};

/// A pipe to and from a child, one half of one, or this program's own standard input and output.
///
/// Each `give` is one write and each `take` one read, tried again where a signal cuts in. A write to a
/// child that has gone is a fault, and raises no signal. A half that is not there fails at each call.
#[derive(Debug, Drop)]
pub struct ChildPipe {
    reading: Option<ChildStdout>,
    writing: Option<ChildStdin>,
    faults: Count,
    ends: Count,
}

impl ChildPipe {
    /// A pipe over what the child writes and what it reads.
    pub(crate) fn new(reading: Option<ChildStdout>, writing: Option<ChildStdin>) -> ChildPipe
        ensures { IsFresh (⟦<ChildPipe as Pipe>⟧.given result) (⟦<ChildPipe as Pipe>⟧.taken result) (⟦<ChildPipe as Pipe>⟧.faults result) (⟦<ChildPipe as Pipe>⟧.ends result) }
    {
        ChildPipe {
            reading,
            writing,
            faults: Count::zero(),
            ends: Count::zero(),
        }
    }

    /// How many calls have failed.
    pub fn faults(&self) -> u64
        ensures { result ≡ ⟦<ChildPipe as Pipe>⟧.faults self.now }
    {
        self.faults.value()
    }

    /// How many times the end of the input was met.
    pub fn ends(&self) -> u64
        ensures { result ≡ ⟦<ChildPipe as Pipe>⟧.ends self.now }
    {
        self.ends.value()
    }
}

/// This program's own standard input and output as one pipe.
pub fn own_pipe(rt: HostRuntime) -> ChildPipe
    ensures { IsFresh (⟦<ChildPipe as Pipe>⟧.given result) (⟦<ChildPipe as Pipe>⟧.taken result) (⟦<ChildPipe as Pipe>⟧.faults result) (⟦<ChildPipe as Pipe>⟧.ends result) }
{
    let input = rt.stdin().as_fd().try_clone_to_owned();
    ChildPipe::new(input.ok().map(ChildStdout::from), own_output(rt))
}

/// This program's standard output, in the form that raises no signal where nobody reads.
pub(crate) fn own_output(rt: HostRuntime) -> Option<ChildStdin> {
    let output = rt.stdout().as_fd().try_clone_to_owned();
    output.ok().map(ChildStdin::from)
}

// One read, tried again where a signal cuts in.
fn read_once(reading: Option<&mut ChildStdout>, into: &mut [u8]) -> io::Result<usize>
    ensures { IfOk result (λ count. count ≤ length into.new) }
{
    let Some(reading) = reading else {
        return Err(io::Error::from(ErrorKind::BrokenPipe));
    };
    for _ in 0..u64::MAX {
        match reading.read(into) {
            Err(error) if error.kind() == ErrorKind::Interrupted => {}
            answer => return answer,
        }
    }
    Err(io::Error::from(ErrorKind::TimedOut))
}

/// One write, tried again where a signal cuts in. One that takes none of some bytes is an error.
pub(crate) fn write_once(writing: Option<&mut ChildStdin>, bytes: &[u8]) -> io::Result<usize>
    ensures within { IfOk result (λ count. count ≤ length bytes.now) }
    ensures some_went { IfOk result (λ count. 0 < length bytes.now → 0 < count) }
{
    let Some(writing) = writing else {
        return Err(io::Error::from(ErrorKind::BrokenPipe));
    };
    for _ in 0..u64::MAX {
        match writing.write(bytes) {
            Err(error) if error.kind() == ErrorKind::Interrupted => {}
            Ok(0) if !bytes.is_empty() => return Err(io::Error::from(ErrorKind::WriteZero)),
            answer => return answer,
        }
    }
    Err(io::Error::from(ErrorKind::TimedOut))
}

impl Pipe for ChildPipe {
    ghost use Rattle.std.specs.Prelude.{None};

    type Cover = FileCover;

    ghost faults = { λ pipe. pipe.faults.value };

    ghost ends = { λ pipe. pipe.ends.value };

    ghost given = { λ _. None };

    ghost taken = { λ _. None };

    ghost left = { λ _. None };

    fn give(
        &mut self,
        _alloc: Global,
        _cover: Option<&FileCover>,
        bytes: &[u8],
    ) -> Result<u64, Trouble> {
        let written = write_once(self.writing.as_mut(), bytes);
        let count = counted(&mut self.faults, written)?;
        Ok(count as u64)
    }

    fn take(&mut self, into: &mut [u8]) -> Result<u64, Failed> {
        let read = read_once(self.reading.as_mut(), into);
        let count = counted(&mut self.faults, read)?;
        if count == 0 && !into.is_empty() {
            self.ends.rise();
        }
        Ok(count as u64)
    }
}
