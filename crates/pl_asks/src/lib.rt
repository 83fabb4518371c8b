//! What providers are asked, and what the host is answered.
#![tactic(auto)]

mod answers;
mod asking;
mod asks;
mod imports;
mod unsent;

pub use answers::{answer_for, halted, refusal_name};
pub use asking::ask_of;
pub use asks::id_or_empty;
pub use pl_columns;
pub use pl_events;
pub use unsent::is_unsent;
