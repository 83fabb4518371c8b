//! What goals, rows, pending operations and requests are ready for: whether a goal can be recorded and by what operation
//! it is carried out, whether a row can be deleted or dropped, a pending operation let go, and a request answered.
#![tactic(auto)]

mod carried;
mod clears;
mod free;
mod goals;
mod laws;
mod removals;
mod requests;
mod sends;
mod unknown;

pub use carried::{has_unknown_provider, is_carried_out, op_of_decision, op_of_goal};
pub use clears::{is_clear_ready, is_imported, is_settled};
pub use free::urn_is_free;
pub use goals::{is_placed, keeps_goal, provider_stands, references_recorded, way_is_free};
pub use laws::{claims_keep, columns_keep};
pub use pl_columns;
pub use removals::{is_delete_ready, is_drop_ready, is_removable};
pub use requests::{has_result, is_invoke, is_post_due, is_settled_request, is_unsent};
pub use sends::{is_keep_ready, is_send_ready, sends_goal};
