//! What is recorded, removed, cleared and posted in a run, and whether its host has ended and it was stopped.
#![tactic(auto)]

mod index;
mod laws;
mod records;

pub use laws::{plain_tells, records_follow};
pub use pl_model;
pub use records::Records;
