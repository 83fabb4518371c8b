ghost use Rattle.std.specs.Prelude.{◌≡◌, [], ◌∷◌, ◌++◌, OnErr, OnOk};

use pl_value::{Bytes, OutOfMemory};
use std::alloc::Global;
use std::marker::Model;

/// One step of a path.
#[derive(Debug, Drop)]
pub enum Segment {
    /// Into an object, to what stands under this key.
    Key(Bytes),
    /// Into a list, to the element at this place, from 0.
    Index(u64),
}

/// A property path, seen as the list of its segments.
#[derive(Debug, Drop)]
pub struct Path {
    segments: Vec<Segment>,
}

impl Model for Path {
    ghost use Rattle.std.specs.Prelude.{List};
    ghost use Rattle.std.specs.Coded.{codes, coded_list};
    ghost use Rattle.pl_path.specs.declared.segment.Segment.{Segment};
    ghost use Rattle.pl_path.specs.contracts.segment.Segment as row;

    ghost Value = { List Segment };

    ghost coded = { coded_list (Prim.hlevel (codes, row.the_row.coded)) };

    ghost view = { λ a. a.segments.items };
}

impl Path {
    /// No segment; takes no memory.
    pub fn new(alloc: Global) -> Path
        ensures { result ≡ [] }
    {
        Path {
            segments: Vec::new(alloc),
        }
    }

    pub fn as_slice(&self) -> &[Segment]
        ensures { result.now ≡ self.now }
    {
        self.segments.as_slice()
    }

    /// Adds a segment at the end; after `OutOfMemory` nothing was added.
    pub fn push(&mut self, segment: Segment) -> Result<(), OutOfMemory>
        ensures added { OnOk result (self.new ≡ self.old ++ segment ∷ []) }
        ensures unchanged { OnErr result (self.new ≡ self.old) }
    {
        self.segments.push(segment)?;
        Ok(())
    }
}
