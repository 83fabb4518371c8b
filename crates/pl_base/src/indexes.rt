ghost use Rattle.std.specs.Prelude.{IfOk};
ghost use Rattle.pl_base.specs.Indexes.{AreIndexes};

use crate::deleters::deleters_of;
use crate::dependents::dependents_of;
use crate::keepers::keepers_of;
use crate::providers::{Providers, providers_of};
use pl_state::Snapshot;
use pl_value::{OutOfMemory, Rows};
use std::alloc::Global;
use std::collections::BTreeMap;

/// What is looked up in a state.
#[derive(Debug, Drop)]
pub struct Indexes {
    /// Of each URN the first row that keeps it.
    pub keepers: BTreeMap<String, u64>,
    pub providers: Providers,
    /// By row, the one whose deletion takes it along.
    pub deleters: Vec<Option<u64>>,
    /// By row, those that refer to it.
    pub dependents: Vec<Rows>,
}

/// The indexes of a state.
pub fn indexes_of(alloc: Global, base: &Snapshot) -> Result<Indexes, OutOfMemory>
    ensures { IfOk result (λ made. AreIndexes base.now made) }
{
    let rows = base.entries.as_slice();
    let keepers = keepers_of(alloc, rows)?;
    let providers = providers_of(alloc, rows, base.pending.as_slice())?;
    let deleters = deleters_of(alloc, rows)?;
    let dependents = dependents_of(alloc, rows)?;
    Ok(Indexes {
        keepers,
        providers,
        deleters,
        dependents,
    })
}
