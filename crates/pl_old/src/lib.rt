//! The rows of the state at the start during a run: which are left, which are to be deleted, and by whom they are
//! provided for.
#![tactic(auto)]

mod claimers;
mod doomed;
mod left;
mod sources;

pub use claimers::{is_replaced, is_taken_over, recorded_claimer};
pub use doomed::{is_doomed, is_sent, takes_along};
pub use left::{has_dependents, is_left, is_marked, is_to_be_made, was_removed};
pub use pl_columns;
pub use sources::{source_of_goal, source_of_pending, source_of_provider, source_of_row};
