//! Whole histories with operations: that a run may have them, and what is said of every run holds of them.
#![tactic(auto)]

pub mod destroy_retains_and_drops;
pub mod first_create;
pub mod replace_delete_first_takes_chain;

pub use pl_model;
