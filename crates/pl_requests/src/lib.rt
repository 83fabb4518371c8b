//! What a request comes to that is told next: its fate, the goals that it makes, and the memory for both before it
//! counts.
#![tactic(auto)]

mod default;
mod fate;
mod laws;
mod making;
mod refusal;
mod told;
mod unknown;
mod words;

pub use laws::columns_follow;
pub use pl_events;
pub use pl_model;
pub use pl_told::{Change, Made, Requests};
pub use told::{fate_of, prepare_told};
