//! A host that runs a program file: it registers the file's resources over a pipe, each once the answers that it uses are
//! there, and tells the stack's outputs in the end.
#![tactic(auto)]

mod due;
mod generating;
mod hearing;
mod rounds;
mod start;
mod talk;

pub use generating::{MOST_THINGS, generate};
pub use rounds::host;
