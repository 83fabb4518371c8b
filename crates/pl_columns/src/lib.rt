//! What is kept of a run's history beside its events: the parts of the core, and what they tell together.
#![tactic(auto)]

mod columns;
mod goals;
mod laws;
mod rows;
mod tickets;

pub use columns::Columns;
pub use laws::tickets_follow;
pub use pl_claims;
pub use pl_decide;
pub use pl_errands;
pub use pl_events;
pub use pl_model;
pub use pl_records;
pub use pl_requests;
pub use pl_state;
pub use pl_troubles;
