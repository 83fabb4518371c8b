//! What a checkpoint holds and what a host registers: entries, snapshots, registrations and goals.
#![tactic(auto)]

mod entries;
mod entry;
mod fault;
mod goal;
mod pending;
mod snapshot;

pub use entries::Entries;
pub use entry::Entry;
pub use fault::{BadCheckpoint, Missing, OptionFault, Unsound, UnsoundOrMemory};
pub use goal::{Changes, Diffed, Goal, Goals, Registration};
pub use pending::{Pending, PendingKind, Pendings};
pub use pl_reference::{
    Imports, KeyedTexts, KeyedUrns, ProviderRef, ProviderWords, RefFault, Urns, read_ref,
};
pub use snapshot::{MOST_RESOURCES, Snapshot};
