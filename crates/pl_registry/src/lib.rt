//! The provider children of a run, by their source; the names of default providers and references are named again.
#![tactic(auto)]

mod lane;
mod table;
mod words;

pub use pl_events::{LaneView, Source};
pub use pl_options::{default_name, id_of};
pub use pl_reference::{ProviderRef, ProviderWords, RefFault, read_ref};
pub use table::LaneTable;
