//! The merged snapshot of a run, kept step by step: what was recorded, what is left of the state at the start, and
//! what is pending. Each entry and each pending operation has a stamp that changes with it.
#![tactic(auto)]

mod fresh;
mod laws;
mod recorded;
mod rows;
mod snap;
mod tag;
mod waiting;

pub use laws::stamps_tell;
pub use pl_refresh::planned_outputs;
pub use snap::Snap;
