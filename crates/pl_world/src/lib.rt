//! The outside as the engine sees it: traits of stores, pipes, spawners, sinks, ids and gates, with
//! what each may do and what of it is told.
#![tactic(auto)]

mod chunks;
mod failing;
mod frames;
mod gate;
mod ids;
mod mem_pipe;
mod mem_sink;
mod mem_spawner;
mod mem_store;
mod pipe;
mod sink;
mod spawner;
mod store;
mod trouble;

pub use frames::{FrameIn, MAX_BODY, read_frame, write_frame};
pub use gate::{FreeGate, Gate, Place};
pub use ids::{CountIds, Ids};
pub use mem_pipe::{MemPipe, PipeScript};
pub use mem_sink::MemSink;
pub use mem_spawner::MemSpawner;
pub use mem_store::{MemCover, MemStore};
pub use pipe::Pipe;
pub use sink::Sink;
pub use spawner::Spawner;
pub use store::{Covering, Store};
pub use trouble::{Failed, Trouble};
