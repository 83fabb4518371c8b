ghost use Rattle.std.specs.Prelude.{◌≡◌, ◌≤◌, [], ◌∷◌, ◌++◌, OnErr, OnOk};
ghost use Rattle.pl_world.specs.Counts.{Rose};
ghost use Rattle.pl_world.specs.Causes.{OnFailed};

use crate::child_pipe::ChildPipe;
use crate::counts::{Count, counted_or_memory};
use crate::file_store::FileCover;
use pl_value::Words;
use pl_world::{Spawner, Trouble};
use std::alloc::Global;
use std::io::{self, ErrorKind};
use std::process::{Child, ChildStdin, ChildStdout, Command, Stdio};
use std::thread;
use std::time::Duration;

/// How often the children are looked at before those that go on are killed.
const LOOKS: u32 = 200;

/// How long the program sleeps between two looks. All of them take two seconds.
const MILLISECONDS: u64 = 10;

/// What starts child processes. Their standard input and output are pipes; the environment, the folder
/// and standard error are this program's.
#[derive(Drop)]
pub struct Children {
    rt: HostRuntime,
    started: Vec<Words>,
    running: Vec<Child>,
    faults: Count,
}

impl Children {
    /// Nothing was started.
    pub fn new(rt: HostRuntime) -> Children
        ensures nothing_started { ⟦<Children as Spawner>⟧.started result ≡ [] }
        ensures no_faults { ⟦<Children as Spawner>⟧.faults result ≡ 0 }
    {
        let alloc = rt.alloc();
        Children {
            rt,
            started: Vec::new(alloc),
            running: Vec::new(alloc),
            faults: Count::zero(),
        }
    }

    /// The words of each start that succeeded, in order.
    pub fn started(&self) -> &[Words]
        ensures { result.now ≡ ⟦<Children as Spawner>⟧.started self.now }
    {
        self.started.as_slice()
    }

    /// How many starts have failed.
    pub fn faults(&self) -> u64
        ensures { result ≡ ⟦<Children as Spawner>⟧.faults self.now }
    {
        self.faults.value()
    }

    /// Lets go of what holds the children's pipes, which closes them, and waits for each child. One that
    /// has not ended two seconds later is killed.
    pub fn finish<P: Drop>(self, pipes: P) {
        drop(pipes);
        let Children { rt, running, .. } = self;
        let mut looks = LOOKS;
        for child in running {
            looks = end_child(&rt, child, looks);
        }
    }

    // Starts a child by the words, and answers what it writes to and what it reads from.
    fn start_piped(
        &mut self,
        alloc: Global,
        words: &Words,
    ) -> Result<(Option<ChildStdout>, Option<ChildStdin>), Trouble>
        ensures started_grew { OnOk result (self.new.started.items ≡ self.old.started.items ++ words.now ∷ []) }
        ensures started_stays { OnErr result (self.new.started.items ≡ self.old.started.items) }
        ensures failed_rose { OnFailed result (Rose self.old.faults.value self.new.faults.value) }
        ensures faults_never_fall { self.old.faults.value ≤ self.new.faults.value }
    {
        // With room for both lists nothing fails once the child runs.
        let copy = words.copy()?;
        self.started.reserve(1)?;
        self.running.reserve(1)?;
        let spawned = spawn(alloc, &self.rt, words);
        let mut child = counted_or_memory(&mut self.faults, spawned)?;
        let ends = (child.stdout.take(), child.stdin.take());
        self.running.push(child)?;
        self.started.push(copy)?;
        Ok(ends)
    }
}

// Starts the program that the first word names.
fn spawn(alloc: Global, rt: &HostRuntime, words: &Words) -> io::Result<Child> {
    let Some(program) = words.get(0) else {
        return Err(io::Error::from(ErrorKind::InvalidInput));
    };
    let mut command = Command::new(alloc, program.as_str())?;
    for place in 1..words.len() {
        if let Some(word) = words.get(place) {
            command.arg(word.as_str())?;
        }
    }
    command.stdin(Stdio::piped()).stdout(Stdio::piped());
    command.spawn(rt)
}

// Waits for a child, and kills it where it has not ended after so many looks. Answers how many looks are
// left for the others.
fn end_child(rt: &HostRuntime, mut child: Child, looks: u32) -> u32 {
    for look in 0..looks {
        match child.try_wait() {
            Ok(None) => thread::sleep(rt, Duration::from_millis(MILLISECONDS)),
            _ => return looks - look,
        }
    }
    if child.kill().is_ok() {
        let _ = child.wait();
    }
    0
}

impl Spawner for Children {
    type Cover = FileCover;

    type Pipe = ChildPipe;

    ghost faults = { λ children. children.faults.value };

    ghost started = { λ children. children.started.items };

    fn start(&mut self, alloc: Global, words: &Words) -> Result<ChildPipe, Trouble> {
        let (reading, writing) = self.start_piped(alloc, words)?;
        Ok(ChildPipe::new(reading, writing))
    }

    fn start_host(
        &mut self,
        alloc: Global,
        words: &Words,
    ) -> Result<(ChildPipe, ChildPipe), Trouble> {
        let (reading, writing) = self.start_piped(alloc, words)?;
        Ok((ChildPipe::new(reading, None), ChildPipe::new(None, writing)))
    }
}
