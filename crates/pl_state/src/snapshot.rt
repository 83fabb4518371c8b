ghost use Rattle.std.specs.Prelude.{◌≡◌, [], IfOk};
ghost use Rattle.pl_state.specs.Component.{bare_state};

use crate::entries::Entries;
use crate::pending::Pendings;
use pl_value::{OutOfMemory, Text};
use std::alloc::Global;

/// The most resources that a state may hold.
pub const MOST_RESOURCES: u64 = 10_000;

/// The state of a stack: what the checkpoint holds.
#[derive(Debug, Drop)]
pub struct Snapshot {
    /// The stack's name; empty where none is known.
    pub stack: Text,
    pub entries: Entries,
    pub pending: Pendings,
    /// The compact text of a JSON object with the fields that are kept unread, `manifest` among them.
    pub rest: Text,
}

impl Snapshot {
    /// The state of a stack that has nothing yet.
    pub fn new(alloc: Global, stack: Text) -> Result<Snapshot, OutOfMemory>
        ensures { IfOk result (λ made. made ≡ bare_state stack []) }
    {
        let rest = Text::from_str(alloc, "{\"manifest\":{}}")?;
        Ok(Snapshot {
            stack,
            entries: Entries::new(alloc),
            pending: Pendings::new(alloc),
            rest,
        })
    }

    pub fn copy(&self, alloc: Global) -> Result<Snapshot, OutOfMemory>
        ensures { IfOk result (λ made. made ≡ self.now) }
    {
        Ok(Snapshot {
            stack: self.stack.copy()?,
            entries: self.entries.copy(alloc)?,
            pending: self.pending.copy(alloc)?,
            rest: self.rest.copy()?,
        })
    }
}
