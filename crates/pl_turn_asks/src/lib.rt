//! What providers are asked by every operation, what an operation opens when it is begun, and what the host is answered.
#![tactic(auto)]

mod asking;
mod deleted;
mod given;
mod laws;
mod turning;

pub use asking::{ask, ask_of};
pub use deleted::{deleted_row, pending_for};
pub use given::{given_answer, result_of};
pub use laws::{answered_entries, deleted_rows_are_kept, providers_are_decided};
pub use pl_columns;
pub use pl_events;
pub use pl_snap;
