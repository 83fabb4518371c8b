ghost use Rattle.std.specs.Prelude.{◌≡◌};
ghost use Rattle.pl_troubles.specs.First.{place_of};

use pl_decide::Problem;

/// What is wrong with a row that is left at the end of a run.
#[derive(Clone, Copy, Debug)]
pub enum RowProblem {
    Protected,
    MissingProvider,
    NotPermitted,
}

/// The first problem other than want of memory, with the position of its event.
#[derive(Debug, Drop)]
pub enum First {
    /// One that was made with memory.
    Made(u64, Problem),
    /// One that the event at this position is by itself: a loss, a host's end or a stop.
    OfEvent(u64),
    /// One of what is left at the end of the run: the position, what is wrong, and with which row of the state at the
    /// start.
    OfRow(u64, RowProblem, u64),
}

impl First {
    /// The position of its event.
    pub fn place(&self) -> u64
        ensures { result ≡ place_of self.now }
    {
        match self {
            First::Made(at, _) => *at,
            First::OfEvent(at) => *at,
            First::OfRow(at, _, _) => *at,
        }
    }
}
