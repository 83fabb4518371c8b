//! What is decided of the first goal that is not decided, by the goals, the replies and the decisions before it.
#![tactic(auto)]

mod chained;
mod change;
mod checked;
mod decided;
mod decision;
mod diff;
mod inputs;
mod laws;
mod next;
mod settling;
mod turn;
mod words;

pub use decided::Settled;
pub use decision::Verdict;
pub use diff::Diff;
pub use laws::settling_is_undone;
pub use next::{decided_next, next_turn};
pub use pl_claims;
pub use pl_errands;
pub use pl_requests;
pub use settling::{settle, take_back};
pub use turn::Turn;
