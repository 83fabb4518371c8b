//! The course of a run, its events with what later steps read of them: how both go together, and that they still do after
//! each event. No code stands here.
#![tactic(auto)]

pub use pl_columns;
pub use pl_model_step;
