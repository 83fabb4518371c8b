ghost use Rattle.std.specs.Prelude.{◌≡◌, [], length, Some};

use crate::failing::FailingCalls;
use crate::store::{Covering, Store};
use crate::trouble::Trouble;
use pl_value::Bytes;
use std::alloc::Global;

/// The cover of a `MemStore`. No other code makes one.
#[derive(Debug, Drop)]
pub struct MemCover {
    text: Bytes,
}

impl Covering for MemCover {
    ghost use Rattle.std.specs.Prelude.{Some};

    ghost text = { λ cover. Some cover.text };
}

impl MemCover {
    /// The bytes that are covered.
    pub fn text(&self) -> &[u8]
        ensures { ⟦<MemCover as Covering>⟧.text self.now ≡ Some result.now }
    {
        self.text.as_slice()
    }
}

/// A store in memory. Some of its calls are to fail; a replacement among them may arrive all the same.
#[derive(Debug, Drop)]
pub struct MemStore {
    story: Vec<Bytes>,
    failing: FailingCalls,
    arriving: Vec<u64>,
}

impl MemStore {
    /// A store with these contents, the present one last. The calls of these indices from 0 fail, and
    /// the bytes of those that are in both lists arrive all the same.
    pub fn new(story: Vec<Bytes>, fails: Vec<u64>, arriving: Vec<u64>) -> MemStore
        ensures story { ⟦<MemStore as Store>⟧.story result ≡ Some story.items }
        ensures no_faults { ⟦<MemStore as Store>⟧.faults result ≡ 0 }
    {
        MemStore {
            story,
            failing: FailingCalls::new(fails),
            arriving,
        }
    }

    /// The contents so far, the present one last.
    pub fn story(&self) -> &[Bytes]
        ensures { ⟦<MemStore as Store>⟧.story self.now ≡ Some result.now }
    {
        self.story.as_slice()
    }

    /// How many calls have failed.
    pub fn faults(&self) -> u64
        ensures { result ≡ ⟦<MemStore as Store>⟧.faults self.now }
    {
        self.failing.faults()
    }

    /// The calls that are to fail.
    pub fn fails(&self) -> &[u64]
        ensures { result.now ≡ [] → ⟦<MemStore as Store>⟧.faults self.now ≡ 0 }
    {
        self.failing.fails()
    }
}

impl Store for MemStore {
    ghost use Rattle.std.specs.Prelude.{Some};

    type Cover = MemCover;

    ghost faults = { λ store. store.failing.faults };

    ghost story = { λ store. Some store.story.items };

    fn read(&mut self, alloc: Global) -> Result<Option<Bytes>, Trouble> {
        if self.failing.next_fails() {
            return Err(Trouble::Failed);
        }
        match self.story.last() {
            Some(content) => Ok(Some(Bytes::from_slice(alloc, content.as_slice())?)),
            None => Ok(None),
        }
    }

    fn replace(&mut self, alloc: Global, bytes: &[u8]) -> Result<MemCover, Trouble> {
        let arrives = self.arriving.contains(&self.failing.calls());
        let failing = self.failing.next_fails();
        if failing && !arrives {
            return Err(Trouble::Failed);
        }
        let text = Bytes::from_slice(alloc, bytes)?;
        self.story.push(Bytes::from_slice(alloc, bytes)?)?;
        if failing {
            return Err(Trouble::Failed);
        }
        Ok(MemCover { text })
    }
}
