//! What a run comes to: laws of the end of an `up`, of the count of its resources, and of the form of its states.
#![tactic(auto)]

mod ends;

pub use ends::{count_within, start_within, states_formed, up_fulfils};
pub use pl_model_laws;
