//! What work of a run is due: the operations that are wanted, the limit, and the lanes that they go to, read from the
//! columns of the run's history without taking memory.
#![tactic(auto)]

mod asked;
mod checked;
mod configures;
mod due;
mod kind;
mod laws;
mod limit;
mod seen;
mod sends;
mod turns;
mod wanting;
mod works;

pub use due::Due;
pub use laws::{columns_know, columns_tell, due_told};
pub use pl_lanes;
pub use pl_ready;
pub use pl_turns;
pub use seen::Seen;
