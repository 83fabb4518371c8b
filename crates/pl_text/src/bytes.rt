ghost use Rattle.std.specs.Prelude.{◌≡◌, ◌++◌, IfOk, length, OnErr, OnOk};

use crate::memory::OutOfMemory;
use std::alloc::Global;
use std::marker::Model;

/// Bytes of any content, seen as their list.
#[derive(Debug, Drop)]
pub struct Bytes {
    bytes: Vec<u8>,
}

impl Model for Bytes {
    ghost use Rattle.std.specs.Prelude.{List, ℕ};

    ghost Value = { List ℕ };

    ghost view = { λ a. a.bytes.items };
}

impl Bytes {
    /// Bytes over the given vector; takes no memory.
    pub fn from_vec(bytes: Vec<u8>) -> Bytes
        ensures { result ≡ bytes.items }
    {
        Bytes { bytes }
    }

    /// The same bytes in memory of their own.
    pub fn from_slice(alloc: Global, bytes: &[u8]) -> Result<Bytes, OutOfMemory>
        ensures { IfOk result (λ made. made ≡ bytes.now) }
    {
        let bytes = bytes.to_vec(alloc)?;
        Ok(Bytes { bytes })
    }

    /// Gives the vector back; takes no memory.
    pub fn into_vec(self) -> Vec<u8>
        ensures { result.items ≡ self }
    {
        let Bytes { bytes } = self;
        bytes
    }

    pub fn as_slice(&self) -> &[u8]
        ensures { result.now ≡ self.now }
    {
        self.bytes.as_slice()
    }

    pub fn len(&self) -> usize
        ensures { result ≡ length self.now }
    {
        self.bytes.len()
    }

    /// Adds the bytes at the end; after `OutOfMemory` nothing was added.
    pub fn extend(&mut self, more: &[u8]) -> Result<(), OutOfMemory>
        ensures added { OnOk result (self.new ≡ self.old ++ more.now) }
        ensures unchanged { OnErr result (self.new ≡ self.old) }
    {
        self.bytes.extend_from_slice(more)?;
        Ok(())
    }

    pub fn copy(&self) -> Result<Bytes, OutOfMemory>
        ensures { IfOk result (λ made. made ≡ self.now) }
    {
        let bytes = self.bytes.clone()?;
        Ok(Bytes { bytes })
    }
}
