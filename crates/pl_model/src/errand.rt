use pl_events::{Op, Reply};
use pl_state::Pending;

/// An operation that was begun.
#[derive(Clone, Copy, Debug)]
pub struct Errand {
    pub ticket: u64,
    /// The seat that began it.
    pub seat: u64,
    /// The lane that it was sent to.
    pub lane: u64,
    pub op: Op,
}

/// An operation that was answered, with its reply.
#[derive(Debug, Drop)]
pub struct Closed {
    pub op: Op,
    pub reply: Reply,
}

/// A pending operation with the ticket of what opened it.
#[derive(Debug, Drop)]
pub struct Opened {
    pub ticket: u64,
    pub pending: Pending,
}
