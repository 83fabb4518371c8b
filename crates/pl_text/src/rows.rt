ghost use Rattle.std.specs.Prelude.{◌≡◌, [], ◌∷◌, ◌++◌, IfOk, length, OnErr, OnOk, slice_get};

use crate::memory::OutOfMemory;
use std::alloc::Global;
use std::marker::Model;

/// Numbers of rows, in order, seen as their list.
#[derive(Debug, Drop)]
pub struct Rows {
    rows: Vec<u64>,
}

impl Model for Rows {
    ghost use Rattle.std.specs.Prelude.{List, ℕ};

    ghost Value = { List ℕ };

    ghost view = { λ a. a.rows.items };
}

impl Rows {
    /// No row; takes no memory.
    pub fn new(alloc: Global) -> Rows
        ensures { result ≡ [] }
    {
        Rows {
            rows: Vec::new(alloc),
        }
    }

    /// Rows over the given vector; takes no memory.
    pub fn from_vec(rows: Vec<u64>) -> Rows
        ensures { result ≡ rows.items }
    {
        Rows { rows }
    }

    /// Gives the vector back; takes no memory.
    pub fn into_vec(self) -> Vec<u64>
        ensures { result.items ≡ self }
    {
        let Rows { rows } = self;
        rows
    }

    pub fn as_slice(&self) -> &[u64]
        ensures { result.now ≡ self.now }
    {
        self.rows.as_slice()
    }

    pub fn len(&self) -> usize
        ensures { result ≡ length self.now }
    {
        self.rows.len()
    }

    /// The row at this place, from 0.
    pub fn get(&self, place: usize) -> Option<u64>
        ensures { result ≡ slice_get self.now place }
    {
        self.rows.get(place).copied()
    }

    /// Adds a row at the end; after `OutOfMemory` nothing was added.
    pub fn push(&mut self, row: u64) -> Result<(), OutOfMemory>
        ensures added { OnOk result (self.new ≡ self.old ++ row ∷ []) }
        ensures unchanged { OnErr result (self.new ≡ self.old) }
    {
        self.rows.push(row)?;
        Ok(())
    }

    pub fn copy(&self) -> Result<Rows, OutOfMemory>
        ensures { IfOk result (λ made. made ≡ self.now) }
    {
        let rows = self.rows.clone()?;
        Ok(Rows { rows })
    }
}
