//! The law that what later steps read of a history is changed by each event as the step says.
#![tactic(auto)]

mod step;

pub use pl_model;
pub use step::{
    plain_reads_same, same_may_happen, summary_is_enough, summary_knows_same, summary_steps,
    summary_tells,
};
