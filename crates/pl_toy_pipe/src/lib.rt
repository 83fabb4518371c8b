//! A toy that stands behind a pipe in memory: what it is given it answers at once over its shelf.
#![tactic(auto)]

mod answering;
mod ending;
mod framing;
mod piped;

pub use piped::{ToyPipe, toy_pipe};
