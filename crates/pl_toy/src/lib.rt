//! A provider to try things with: it keeps things on a shelf, and its replies are told by a table.
#![tactic(auto)]

mod create;
mod mem_shelf;
mod replying;
mod shelf;

pub use mem_shelf::MemShelf;
pub use replying::respond;
pub use shelf::Shelf;
