use crate::first::RowProblem;
use pl_decide::Problem;
use pl_events::{HostEnd, Loss, Stop};
use pl_urn::Urn;
use std::snapshot::Snapshot;

/// How problems were added, the newest first, each with the position of its event. It is known in proofs alone.
#[derive(Drop)]
pub enum Story {
    Start,
    /// A problem that was made with memory.
    Made(u64, Snapshot<Problem>, Snapshot<Story>),
    /// A loss on a lane: the position, the lane, and why.
    Lost(u64, u64, Snapshot<Loss>, Snapshot<Story>),
    /// The host's end, which may be no problem.
    Ended(u64, Snapshot<HostEnd>, Snapshot<Story>),
    Stopped(u64, Stop, Snapshot<Story>),
    /// A row that is left at the end of the run: the position, what is wrong, and the row's URN.
    Left(u64, RowProblem, Snapshot<Urn>, Snapshot<Story>),
}
