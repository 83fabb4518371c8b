//! The words of the command line, read into a command, each refusal at its place.
#![tactic(auto)]

mod command;
mod place;
mod read;
mod table;

pub use command::{Command, RunWords, WordFault};
pub use read::{file_of, read_words, spells_state};
pub use table::StateWork;
