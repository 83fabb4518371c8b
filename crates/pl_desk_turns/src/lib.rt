//! An item at a desk, and threads that take turns at it.
#![tactic(auto)]

mod alone;
mod crews;
mod notes;
mod pair;
#[cfg(test)]
mod tests;
mod turns;

pub use alone::one_thread;
pub use crews::{Work, crew};
pub use notes::{Note, Notes, Saying};
pub use pair::look_both;
pub use turns::{Added, two_threads};
