ghost use Rattle.std.specs.Prelude.{◌≡◌, IfOk};

use crate::problem::{Child, Problem};
use pl_state::BadCheckpoint;
use pl_value::{Bytes, OutOfMemory};
use std::alloc::Global;

/// How a run ended.
#[derive(Debug, Drop)]
pub enum Outcome {
    Done,
    /// The problem stands in the history at position `at`, counted from 0.
    Failed { at: u64, problem: Problem },
    TooManyResources,
    /// The words are no command; `place` is the first word that may not stand where it does.
    BadWords { place: u64 },
    /// The state has resources, and the command is one that begins over none yet. Nothing was started.
    NotBuilt,
    /// The store's content is no checkpoint.
    BadCheckpoint(BadCheckpoint),
    /// The state has so many pending operations, and the command takes none.
    PendingOperations(u64),
    StoreFault,
    /// The file beside the store, as that of a plan, could not be read or written.
    SideFault,
    StartFault,
    PipeFault(Child),
    /// What was to be printed could not be written.
    SinkFault,
    ChildEnded(Child),
    BadFrame { child: Child, bytes: Bytes },
    OutOfMemory,
}

impl Outcome {
    pub fn copy(&self, alloc: Global) -> Result<Outcome, OutOfMemory>
        ensures { IfOk result (λ made. made ≡ self.now) }
    {
        Ok(match self {
            Outcome::Done => Outcome::Done,
            Outcome::Failed { at, problem } => Outcome::Failed {
                at: *at,
                problem: problem.copy(alloc)?,
            },
            Outcome::TooManyResources => Outcome::TooManyResources,
            Outcome::BadWords { place } => Outcome::BadWords { place: *place },
            Outcome::NotBuilt => Outcome::NotBuilt,
            Outcome::BadCheckpoint(fault) => Outcome::BadCheckpoint(fault.copy()?),
            Outcome::PendingOperations(number) => Outcome::PendingOperations(*number),
            Outcome::StoreFault => Outcome::StoreFault,
            Outcome::SideFault => Outcome::SideFault,
            Outcome::StartFault => Outcome::StartFault,
            Outcome::PipeFault(child) => Outcome::PipeFault(*child),
            Outcome::SinkFault => Outcome::SinkFault,
            Outcome::ChildEnded(child) => Outcome::ChildEnded(*child),
            Outcome::BadFrame { child, bytes } => Outcome::BadFrame {
                child: *child,
                bytes: bytes.copy()?,
            },
            Outcome::OutOfMemory => Outcome::OutOfMemory,
        })
    }
}
