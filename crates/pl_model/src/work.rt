use pl_events::Op;

/// What the engine may do.
#[derive(Clone, Copy, Debug)]
pub enum Work {
    /// To answer the request of this number.
    Post(u64),
    /// To keep the goal of this number.
    Keep(u64),
    /// To let a pending operation go.
    Clear(u64),
    /// To drop a row.
    Drop(u64),
    /// To send an operation.
    Send(Op),
}
