//! The rows after a refresh: the row that a thing becomes once it was read, and the rows that are left, without the
//! references that nothing meets. What they are is defined in `specs/`, and the calls compute exactly that.
#![tactic(auto)]

mod ancestry;
mod found;
mod planned;
mod pruned;
mod references;
mod row_now;
mod rows_now;
mod standing;
mod there;
mod vectors;

pub use found::refreshed;
pub use planned::planned_outputs;
pub use pruned::prune;
pub use row_now::RowNow;
pub use rows_now::RowsNow;
pub use vectors::{imported_rows, pruned_rows, refreshed_rows};
