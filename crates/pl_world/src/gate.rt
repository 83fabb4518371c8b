/// A moment of a run, by the ticket of the operation: before its request is sent, or after its reply
/// came.
#[derive(Clone, Copy, Debug, PartialEq, Eq)]
pub enum Place {
    BeforeSend(u64),
    AfterReply(u64),
}

/// Where a test may hold a thread. It does nothing in a program.
pub trait Gate: Drop + Send + Sync {
    /// Returns, at the latest after some turns.
    fn at(&self, place: Place);
}

/// A gate that holds nobody.
#[derive(Clone, Copy, Debug)]
pub struct FreeGate;

impl Gate for FreeGate {
    fn at(&self, _place: Place) {}
}
