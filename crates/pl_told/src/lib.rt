//! Goals and told requests as they are kept: they are found by number and by URN, a request that is told next takes
//! memory before it counts, and the newest one can be taken back.
#![tactic(auto)]

mod change;
mod index;
mod laws;
mod requests;
mod stored;

pub use change::{Change, Made};
pub use laws::changes_are_undone;
pub use pl_events;
pub use pl_model;
pub use requests::Requests;
