ghost use Rattle.std.specs.Prelude.{◌≡◌, [], Some};

use crate::chunks::Chunks;
use crate::failing::FailingCalls;
use crate::sink::Sink;
use crate::trouble::Trouble;
use std::alloc::Global;

/// A sink in memory.
#[derive(Debug, Drop)]
pub struct MemSink {
    written: Vec<u8>,
    chunks: Chunks,
    failing: FailingCalls,
}

impl MemSink {
    /// A sink that cuts writes at these sizes, used in turn and again from the first. The calls of these
    /// indices from 0 fail; nothing goes out in a call that fails.
    pub fn new(alloc: Global, chunks: Vec<usize>, fails: Vec<u64>) -> MemSink
        ensures nothing_written { ⟦<MemSink as Sink>⟧.written result ≡ Some [] }
        ensures no_faults { ⟦<MemSink as Sink>⟧.faults result ≡ 0 }
    {
        MemSink {
            written: Vec::new(alloc),
            chunks: Chunks::new(chunks),
            failing: FailingCalls::new(fails),
        }
    }

    /// The bytes that were written.
    pub fn written(&self) -> &[u8]
        ensures { ⟦<MemSink as Sink>⟧.written self.now ≡ Some result.now }
    {
        self.written.as_slice()
    }

    /// How many calls have failed.
    pub fn faults(&self) -> u64
        ensures { result ≡ ⟦<MemSink as Sink>⟧.faults self.now }
    {
        self.failing.faults()
    }

    /// The calls that are to fail.
    pub fn fails(&self) -> &[u64]
        ensures { result.now ≡ [] → ⟦<MemSink as Sink>⟧.faults self.now ≡ 0 }
    {
        self.failing.fails()
    }
}

impl Sink for MemSink {
    ghost use Rattle.std.specs.Prelude.{Some};

    ghost faults = { λ sink. sink.failing.faults };

    ghost written = { λ sink. Some sink.written.items };

    fn write(&mut self, _alloc: Global, bytes: &[u8]) -> Result<u64, Trouble> {
        if self.failing.next_fails() {
            return Err(Trouble::Failed);
        }
        let count = self.chunks.next_size(bytes.len());
        self.written.extend_from_slice(&bytes[..count])?;
        Ok(count as u64)
    }
}
