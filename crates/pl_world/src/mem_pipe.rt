ghost use Rattle.std.specs.Prelude.{◌≡◌, ◌≤◌, [], IfOk, option_map, Some, vec_len};
ghost use Rattle.pl_world.specs.Told.{bytes_of};

use crate::chunks::Chunks;
use crate::failing::FailingCalls;
use crate::mem_store::MemCover;
use crate::pipe::Pipe;
use crate::trouble::{Failed, Trouble};
use pl_value::{Bytes, OutOfMemory};
use std::alloc::Global;

/// What a pipe in memory is to do.
#[derive(Debug, Drop)]
pub struct PipeScript {
    /// The bytes to be taken. After them the input ends.
    pub input: Vec<u8>,
    /// The sizes at which reads and writes are cut, used in turn and again from the first. Where there
    /// are none nothing is cut; the size 0 counts as 1.
    pub chunks: Vec<usize>,
    /// The calls that are to fail, by their index from 0. Nothing goes out in a call that fails.
    pub fails: Vec<u64>,
}

impl PipeScript {
    /// A pipe whose input is over at once; takes no memory.
    pub fn empty(alloc: Global) -> PipeScript
        ensures { result.input.items ≡ [] }
    {
        PipeScript {
            input: Vec::new(alloc),
            chunks: Vec::new(alloc),
            fails: Vec::new(alloc),
        }
    }
}

/// A pipe in memory.
#[derive(Debug, Drop)]
pub struct MemPipe {
    given: Vec<(Bytes, Option<Bytes>)>,
    input: Vec<u8>,
    at: usize,
    ends: u64,
    chunks: Chunks,
    failing: FailingCalls,
    ghost within: { at ≤ vec_len input },
}

impl MemPipe {
    /// A pipe that does what the script says.
    pub fn new(alloc: Global, script: PipeScript) -> MemPipe
        ensures nothing_given { ⟦<MemPipe as Pipe>⟧.given result ≡ Some [] }
        ensures nothing_taken { ⟦<MemPipe as Pipe>⟧.taken result ≡ Some [] }
        ensures all_left { ⟦<MemPipe as Pipe>⟧.left result ≡ Some script.input.items }
        ensures no_faults { ⟦<MemPipe as Pipe>⟧.faults result ≡ 0 }
        ensures no_ends { ⟦<MemPipe as Pipe>⟧.ends result ≡ 0 }
    {
        let PipeScript {
            input,
            chunks,
            fails,
        } = script;
        MemPipe {
            given: Vec::new(alloc),
            input,
            at: 0,
            ends: 0,
            chunks: Chunks::new(chunks),
            failing: FailingCalls::new(fails),
        }
    }

    /// The pieces that were given, each with the text of its cover.
    pub fn given(&self) -> &[(Bytes, Option<Bytes>)]
        ensures { ⟦<MemPipe as Pipe>⟧.given self.now ≡ Some result.now }
    {
        self.given.as_slice()
    }

    /// The bytes that were given.
    pub fn given_bytes(&self, alloc: Global) -> Result<Bytes, OutOfMemory>
        ensures { IfOk result (λ bytes. option_map bytes_of (⟦<MemPipe as Pipe>⟧.given self.now) ≡ Some bytes) }
    {
        let mut bytes = Vec::new(alloc);
        for piece in &self.given {
            bytes.extend_from_slice(piece.0.as_slice())?;
        }
        Ok(Bytes::from_vec(bytes))
    }

    /// The bytes that were taken.
    pub fn taken(&self) -> &[u8]
        ensures { ⟦<MemPipe as Pipe>⟧.taken self.now ≡ Some result.now }
    {
        &self.input[..self.at]
    }

    /// The bytes that are left to be taken.
    pub fn left(&self) -> &[u8]
        ensures { ⟦<MemPipe as Pipe>⟧.left self.now ≡ Some result.now }
    {
        &self.input[self.at..]
    }

    /// How many calls have failed.
    pub fn faults(&self) -> u64
        ensures { result ≡ ⟦<MemPipe as Pipe>⟧.faults self.now }
    {
        self.failing.faults()
    }

    /// How many times the end of the input was met.
    pub fn ends(&self) -> u64
        ensures { result ≡ ⟦<MemPipe as Pipe>⟧.ends self.now }
    {
        self.ends
    }

    /// The calls that are to fail.
    pub fn fails(&self) -> &[u64]
        ensures { result.now ≡ [] → ⟦<MemPipe as Pipe>⟧.faults self.now ≡ 0 }
    {
        self.failing.fails()
    }
}

impl Pipe for MemPipe {
    ghost use Rattle.std.specs.Prelude.{Some, take, drop};

    type Cover = MemCover;

    ghost faults = { λ pipe. pipe.failing.faults };

    ghost ends = { λ pipe. pipe.ends };

    ghost given = { λ pipe. Some pipe.given.items };

    ghost taken = { λ pipe. Some (take pipe.at pipe.input.items) };

    ghost left = { λ pipe. Some (drop pipe.at pipe.input.items) };

    fn give(
        &mut self,
        alloc: Global,
        cover: Option<&MemCover>,
        bytes: &[u8],
    ) -> Result<u64, Trouble> {
        if self.failing.next_fails() {
            return Err(Trouble::Failed);
        }
        let count = self.chunks.next_size(bytes.len());
        let piece = Bytes::from_slice(alloc, &bytes[..count])?;
        let text = match cover {
            Some(cover) => Some(Bytes::from_slice(alloc, cover.text())?),
            None => None,
        };
        self.given.push((piece, text))?;
        Ok(count as u64)
    }

    fn take(&mut self, into: &mut [u8]) -> Result<u64, Failed> {
        if self.failing.next_fails() {
            return Err(Failed);
        }
        let most = into.len().min(self.input.len() - self.at);
        let count = self.chunks.next_size(most);
        if count == 0 && !into.is_empty() {
            self.ends = self.ends.saturating_add(1);
        }
        into[..count].copy_from_slice(&self.input[self.at..self.at + count]);
        self.at += count;
        Ok(count as u64)
    }
}
