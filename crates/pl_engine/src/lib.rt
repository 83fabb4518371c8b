//! The top call: it runs a host's program against the checkpoint.
#![tactic(auto)]

mod content;
mod evidence;
mod finish;
mod hear;
mod hostless;
mod journal;
mod judge;
mod keep;
mod log;
mod post;
mod serve;
mod start;
mod top;
mod world;

pub use hostless::offline;
pub use top::engine;
pub use world::{Finished, OfflineAnswer, RunRecord, World};
