//! Whether a state is sound: each row finds what it refers to among the rows before it.
#![tactic(auto)]

mod seen;
mod sound;

pub use pl_state;
pub use seen::Seen;
pub use sound::{fault_of, is_sound};
