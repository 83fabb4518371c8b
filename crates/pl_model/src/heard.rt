use pl_decide::Problem;
use pl_events::Request;

/// What becomes of a told request.
#[derive(Debug, Drop)]
pub enum Fate {
    /// A problem before it halts it.
    Halted,
    Refused(Problem),
    Accepted,
}

/// A told request with its fate.
#[derive(Debug, Drop)]
pub struct Heard {
    pub request: Request,
    pub fate: Fate,
    /// The number of the goal that it is about, if it is accepted: the one that it makes, the component whose
    /// outputs it tells, or the provider that it invokes.
    pub about: Option<u64>,
}
