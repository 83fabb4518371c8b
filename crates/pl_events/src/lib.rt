//! The data of a run's history: what the host asked, what was recorded, and what was answered.
#![tactic(auto)]

mod event;
mod history;
mod operation;
mod reply;

pub use event::{Answer, Event, HostEnd, Request, Stop, What};
pub use history::History;
pub use operation::{Ask, Call, LaneView, Op, Source, Subject};
pub use reply::{Exchanged, Loss, Reasons, Reply};
