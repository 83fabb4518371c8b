//! The problems of a run, in order: known in full in proofs alone, the first ones in memory.
#![tactic(auto)]

mod first;
mod laws;
mod marks;
mod story;
mod troubles;

pub use first::{First, RowProblem};
pub use laws::troubles_follow;
pub use pl_decide;
pub use pl_model;
pub use troubles::Troubles;
