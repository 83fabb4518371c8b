//! The core: the events of a run, with what later steps read of them. Each call appends the event of its name.
#![tactic(auto)]

mod beginning;
mod closing;
mod held;
mod keeping;
mod laws;
mod posting;
mod reads;
mod starting;
mod turned;

pub use crate::held::Core;
pub use pl_columns;
