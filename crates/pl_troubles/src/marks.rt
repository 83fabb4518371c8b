ghost use Rattle.std.specs.Prelude.{◌≡◌, ◌||◌, is_some, not, None, Some};
ghost use Rattle.std.specs.Option.{option_or};
ghost use Rattle.pl_model.specs.History.{is_no_want};
ghost use Rattle.pl_model.specs.Problems.{problem_of_end, problem_of_loss, problem_of_stop};
ghost use Rattle.pl_troubles.specs.Marks.{with_mark, with_mark_of, with_row_mark};
ghost use Rattle.pl_troubles.specs.declared.first.First.TheVariants.{Made, OfEvent, OfRow};

use crate::first::{First, RowProblem};
use pl_decide::Problem;
use pl_events::{HostEnd, Loss, Stop};

/// What is kept in memory of the problems: the first other than want of memory, and where memory was wanted first.
#[derive(Debug, Drop)]
pub struct Marks {
    pub first: Option<First>,
    pub wanted: Option<u64>,
}

fn is_want(problem: &Problem) -> bool
    ensures { result ≡ not (is_no_want problem.now) }
{
    matches!(problem, Problem::NoMemory)
}

/// Keeps the first of two.
fn keep_first(first: &mut Option<First>, made: First)
    ensures { first.new ≡ option_or first.old (Some made) }
{
    if first.is_none() {
        *first = Some(made);
    }
}

/// Keeps the first of two positions.
fn keep_place(place: &mut Option<u64>, at: u64)
    ensures { place.new ≡ option_or place.old (Some at) }
{
    if place.is_none() {
        *place = Some(at);
    }
}

impl Marks {
    pub fn none() -> Marks
        ensures { result ≡ record { first = None; wanted = None } }
    {
        Marks {
            first: None,
            wanted: None,
        }
    }

    /// Whether there was a problem.
    pub fn any(&self) -> bool
        ensures { result ≡ (is_some self.now.first || is_some self.now.wanted) }
    {
        self.first.is_some() || self.wanted.is_some()
    }

    /// A problem that was made with memory; its value is kept if it is the first.
    pub fn made(&mut self, at: u64, problem: Problem)
        ensures { self.new ≡ with_mark (Made at problem) problem self.old }
    {
        if is_want(&problem) {
            keep_place(&mut self.wanted, at);
        } else {
            keep_first(&mut self.first, First::Made(at, problem));
        }
    }

    /// A loss on a lane.
    pub fn loss(&mut self, at: u64, lane: u64, why: &Loss)
        ensures { self.new ≡ with_mark (OfEvent at) (problem_of_loss lane why.now) self.old }
    {
        match why {
            Loss::NoMemory => keep_place(&mut self.wanted, at),
            _ => keep_first(&mut self.first, First::OfEvent(at)),
        }
    }

    /// A host's end; its word of success is no problem.
    pub fn end(&mut self, at: u64, end: &HostEnd)
        ensures { self.new ≡ with_mark_of (OfEvent at) (problem_of_end end.now) self.old }
    {
        match end {
            HostEnd::Success => {}
            HostEnd::NoMemory => keep_place(&mut self.wanted, at),
            _ => keep_first(&mut self.first, First::OfEvent(at)),
        }
    }

    /// A stop.
    pub fn stop(&mut self, at: u64, stop: Stop)
        ensures { self.new ≡ with_mark (OfEvent at) (problem_of_stop stop) self.old }
    {
        match stop {
            Stop::NoMemory => keep_place(&mut self.wanted, at),
            _ => keep_first(&mut self.first, First::OfEvent(at)),
        }
    }

    /// A row that is left at the end of the run; none of its problems is want of memory.
    pub fn left(&mut self, at: u64, what: RowProblem, row: u64)
        ensures { self.new ≡ with_row_mark (OfRow at what row) self.old }
    {
        keep_first(&mut self.first, First::OfRow(at, what, row));
    }
}
