//! The entries that events record or open: what a reply or a keep gives to the entry of a goal, and the entry itself.
#![tactic(auto)]

mod ids;
mod keeping;
mod making;
mod opened;
mod provided;
mod providing;
mod recorded;
mod recording;
mod replied;

pub use ids::needs_fresh;
pub use keeping::result_of_keep;
pub use making::goal_entry;
pub use opened::{creating_entry, pending_for, updating_entry};
pub use pl_columns;
pub use pl_model;
pub use pl_state;
pub use provided::recorded_ids;
pub use providing::{claim_row, claimed_row, provider_id, reference_to};
pub use recorded::{entry_of_keep, entry_of_reply};
pub use recording::Recording;
pub use replied::result_of_reply;
