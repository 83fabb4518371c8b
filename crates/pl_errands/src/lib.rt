//! The operations of a run by their tickets: which were begun, answered and lost, with what reply, and on which lanes.
#![tactic(auto)]

mod errands;
mod index;
mod key;
mod lane;
mod laws;
mod row;
mod same;

pub use errands::Errands;
pub use laws::answers_are_undone;
pub use pl_events;
pub use pl_model;
