//! The problems that an event makes, found in the columns of a run's history.
#![tactic(auto)]

mod decisions;
mod ending;
mod ends;
mod holding;
mod imports;
mod lacking;
mod limits;
mod made;
mod replies;
mod start;
mod unread;
mod words;

pub use decisions::{missing_providers, refusals};
pub use ending::{end_problems, host_gone_problems, kept_problems};
pub use ends::{protected_row, unprovided_row};
pub use holding::holding_row;
pub use limits::{turned_urn, unpermitted_row};
pub use made::{answered_problems, told_problems};
pub use pl_old;
pub use replies::problem_of_reply;
pub use start::{refresh_problems, start_problems};
