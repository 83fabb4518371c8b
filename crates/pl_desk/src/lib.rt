//! A lock round one item that keeps a list of lines. Each seat knows the list that it saw last and the lines of its own.
#![tactic(auto)]

mod board;
mod calls;
mod desk;
mod error;
mod plays;
mod seats;

pub use board::Chronicle;
pub use calls::{enter, leave, new};
pub use desk::{Desk, Seat, Turn};
pub use error::OutOfMemory;
pub use seats::{close, join, rest, split};
