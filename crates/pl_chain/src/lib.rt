//! The chain of a row: the rows that refer to it, directly or through others.
#![tactic(auto)]

mod chained;
mod claimed;
mod fault;
mod referring;

pub use chained::chain;
pub use fault::ChainFault;
pub use pl_state;
