ghost use Rattle.std.specs.Prelude.{◌≡◌, [], List};

use crate::failing::FailingCalls;
use crate::mem_pipe::{MemPipe, PipeScript};
use crate::mem_store::MemCover;
use crate::spawner::Spawner;
use crate::trouble::Trouble;
use pl_value::Words;
use std::alloc::Global;

/// A spawner in memory. It hands out pipes by its scripts in order, one for a child and two for a host,
/// and pipes whose input is over at once where no script is left.
#[derive(Debug, Drop)]
pub struct MemSpawner {
    started: Vec<Words>,
    scripts: Vec<PipeScript>,
    failing: FailingCalls,
}

impl MemSpawner {
    /// The calls of these indices from 0 fail.
    pub fn new(alloc: Global, scripts: Vec<PipeScript>, fails: Vec<u64>) -> MemSpawner
        ensures nothing_started { ⟦<MemSpawner as Spawner>⟧.started result ≡ [] }
        ensures no_faults { ⟦<MemSpawner as Spawner>⟧.faults result ≡ 0 }
    {
        MemSpawner {
            started: Vec::new(alloc),
            scripts,
            failing: FailingCalls::new(fails),
        }
    }

    /// The words of each start that succeeded, in order.
    pub fn started(&self) -> &[Words]
        ensures { result.now ≡ ⟦<MemSpawner as Spawner>⟧.started self.now }
    {
        self.started.as_slice()
    }

    /// How many calls have failed.
    pub fn faults(&self) -> u64
        ensures { result ≡ ⟦<MemSpawner as Spawner>⟧.faults self.now }
    {
        self.failing.faults()
    }

    /// The calls that are to fail.
    pub fn fails(&self) -> &[u64]
        ensures { result.now ≡ [] → ⟦<MemSpawner as Spawner>⟧.faults self.now ≡ 0 }
    {
        self.failing.fails()
    }
}

// The next script, or one whose input is over at once.
fn next_script(alloc: Global, scripts: &mut Vec<PipeScript>) -> PipeScript {
    if scripts.is_empty() {
        return PipeScript::empty(alloc);
    }
    scripts.remove(0)
}

impl Spawner for MemSpawner {
    type Cover = MemCover;

    type Pipe = MemPipe;

    ghost faults = { λ spawner. spawner.failing.faults };

    ghost started = { λ spawner. spawner.started.items };

    fn start(&mut self, alloc: Global, words: &Words) -> Result<MemPipe, Trouble> {
        if self.failing.next_fails() {
            return Err(Trouble::Failed);
        }
        self.started.push(words.copy()?)?;
        Ok(MemPipe::new(alloc, next_script(alloc, &mut self.scripts)))
    }

    fn start_host(&mut self, alloc: Global, words: &Words) -> Result<(MemPipe, MemPipe), Trouble> {
        if self.failing.next_fails() {
            return Err(Trouble::Failed);
        }
        self.started.push(words.copy()?)?;
        let reading = MemPipe::new(alloc, next_script(alloc, &mut self.scripts));
        let writing = MemPipe::new(alloc, next_script(alloc, &mut self.scripts));
        Ok((reading, writing))
    }
}
