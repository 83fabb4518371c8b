ghost use Rattle.std.specs.Prelude.{◌≡◌, [], None};
ghost use Rattle.pl_engine.specs.Headline.{no_state, status_code};

use crate::world::{Finished, RunRecord, World};
use pl_decide::Outcome;
use pl_state::{Entries, Pendings, Snapshot};
use pl_value::Text;
use pl_world::{Spawner, Store};
use std::alloc::Global;

/// The status that the program ends with after this outcome.
pub fn status_of(outcome: &Outcome) -> u8
    ensures { result ≡ status_code outcome.now }
{
    match outcome {
        Outcome::Done => 0,
        Outcome::Failed { .. } => 1,
        Outcome::TooManyResources => 1,
        Outcome::BadWords { .. } => 2,
        Outcome::NotBuilt => 3,
        Outcome::BadCheckpoint(_) => 3,
        Outcome::PendingOperations(_) => 4,
        Outcome::StoreFault => 5,
        Outcome::SideFault => 5,
        Outcome::StartFault => 5,
        Outcome::PipeFault(_) => 5,
        Outcome::SinkFault => 5,
        Outcome::ChildEnded(_) => 6,
        Outcome::BadFrame { .. } => 6,
        Outcome::OutOfMemory => 7,
    }
}

/// A call that ends before its run.
pub fn refused<S: Store, B: Drop, P: Spawner, W: Drop, I: Drop, G: Drop>(
    alloc: Global,
    outcome: Outcome,
    wanted: bool,
    world: World<S, B, P, W, I, G>,
) -> Finished<S, B, P, W, I, G>
    ensures outcome { result.outcome ≡ outcome }
    ensures status { result.status ≡ status_code outcome }
    ensures world { result.world ≡ world }
    ensures history { result.run.history.items ≡ [] }
    ensures marks { result.run.marks.items ≡ [] }
    ensures base { result.run.base ≡ no_state }
    ensures host { result.run.host ≡ None }
    ensures wanted { result.run.wanted ≡ wanted }
{
    let status = status_of(&outcome);
    let base = Snapshot {
        stack: Text::from_string(String::new(alloc)),
        entries: Entries::new(alloc),
        pending: Pendings::new(alloc),
        rest: Text::from_string(String::new(alloc)),
    };
    let run = RunRecord {
        base,
        history: Vec::new(alloc),
        marks: Vec::new(alloc),
        host: None,
        wanted,
    };
    Finished {
        status,
        outcome,
        world,
        run,
    }
}
