//! What a run is over, with what is looked up in its state at the start by indexes.
#![tactic(auto)]

mod base;
mod deleters;
mod dependents;
mod indexes;
mod keepers;
mod providers;

pub use base::Base;
pub use pl_model;
pub use pl_state;
