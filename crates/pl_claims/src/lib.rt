//! What is decided of the goals of a run, and which rows of the state at the start they claim and take along.
#![tactic(auto)]

mod claims;
mod laws;
mod mark;
mod settled;

pub use claims::Claims;
pub use laws::columns_follow;
pub use pl_base;
pub use pl_model;
pub use pl_state;
