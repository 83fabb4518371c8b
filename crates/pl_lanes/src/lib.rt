//! By which provider an operation is served and on which lanes, and what a piece of work adds to the count of resources,
//! read from the columns of a run's history.
#![tactic(auto)]

mod added;
mod lanes;
mod sources;
mod words;

pub use added::{added_by, claim_leaves};
pub use lanes::{checked_in, checked_there, is_checked_lane, is_lane_of};
pub use pl_columns;
pub use sources::source_of_op;
pub use words::{is_preview, is_refresh, is_source, is_to_read};
