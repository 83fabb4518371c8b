//! The references between rows: whether each goes to a row before, which rows refer to a row, and which reach it
//! through others.
#![tactic(auto)]

mod graph;
mod marks;

pub use graph::Graph;
pub use pl_text::{OutOfMemory, Rows};
