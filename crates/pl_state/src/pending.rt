ghost use Rattle.std.specs.Prelude.{◌≡◌, [], ◌∷◌, ◌++◌, IfOk, length, OnErr, OnOk, option_map, slice_get};

use crate::entry::Entry;
use pl_value::OutOfMemory;
use std::alloc::Global;
use std::marker::Model;

/// What a pending operation was about to do.
#[derive(Clone, Copy, Debug, PartialEq, Eq)]
pub enum PendingKind {
    Creating,
    Updating,
    Deleting,
    Reading,
    Importing,
}

/// An operation that was sent and whose reply is not recorded.
#[derive(Debug, Drop)]
pub struct Pending {
    pub kind: PendingKind,
    pub entry: Entry,
}

impl Pending {
    pub fn copy(&self, alloc: Global) -> Result<Pending, OutOfMemory>
        ensures { IfOk result (λ made. made ≡ self.now) }
    {
        Ok(Pending {
            kind: self.kind,
            entry: self.entry.copy(alloc)?,
        })
    }
}

/// Pending operations, in order of their sending, seen as their list.
#[derive(Debug, Drop)]
pub struct Pendings {
    operations: Vec<Pending>,
}

impl Model for Pendings {
    ghost use Rattle.std.specs.Prelude.{List};
    ghost use Rattle.std.specs.Coded.{codes, coded_list};
    ghost use Rattle.pl_state.specs.declared.pending.Pending.{Pending};
    ghost use Rattle.pl_state.specs.contracts.pending.Pending as row;

    ghost Value = { List Pending };

    ghost coded = { coded_list (Prim.hlevel (codes, row.the_row.coded)) };

    ghost view = { λ a. a.operations.items };
}

impl Pendings {
    /// Nothing in the list; takes no memory.
    pub fn new(alloc: Global) -> Pendings
        ensures { result ≡ [] }
    {
        Pendings {
            operations: Vec::new(alloc),
        }
    }

    /// Over the given vector; takes no memory.
    pub fn from_vec(operations: Vec<Pending>) -> Pendings
        ensures { result ≡ operations.items }
    {
        Pendings { operations }
    }

    /// Gives the vector back; takes no memory.
    pub fn into_vec(self) -> Vec<Pending>
        ensures { result.items ≡ self }
    {
        let Pendings { operations } = self;
        operations
    }

    pub fn as_slice(&self) -> &[Pending]
        ensures { result.now ≡ self.now }
    {
        self.operations.as_slice()
    }

    pub fn len(&self) -> usize
        ensures { result ≡ length self.now }
    {
        self.operations.len()
    }

    /// The operation at this place, from 0.
    pub fn get(&self, place: usize) -> Option<&Pending>
        ensures { option_map (λ operation. operation.now) result ≡ slice_get self.now place }
    {
        self.operations.get(place)
    }

    /// Adds a operation at the end; after `OutOfMemory` nothing was added.
    pub fn push(&mut self, operation: Pending) -> Result<(), OutOfMemory>
        ensures added { OnOk result (self.new ≡ self.old ++ operation ∷ []) }
        ensures unchanged { OnErr result (self.new ≡ self.old) }
    {
        self.operations.push(operation)?;
        Ok(())
    }

    pub fn copy(&self, alloc: Global) -> Result<Pendings, OutOfMemory>
        ensures { IfOk result (λ made. made ≡ self.now) }
    {
        let mut operations = Vec::new(alloc);
        for operation in &self.operations {
            operations.push(operation.copy(alloc)?)?;
        }
        Ok(Pendings { operations })
    }
}
