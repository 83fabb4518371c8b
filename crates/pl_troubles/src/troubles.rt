ghost use Rattle.std.specs.Prelude.{◌≡◌, ◌==◌, [], ◌∷◌, ◌++◌, find, length, not};
ghost use Rattle.std.specs.Option.{option_copied};
ghost use Rattle.pl_lemmas.specs.Words.{option_list};
ghost use Rattle.pl_model.specs.History.{is_no_want};
ghost use Rattle.pl_model.specs.Problems.{at_position, problem_of_end, problem_of_loss, problem_of_stop};
ghost use Rattle.pl_troubles.specs.First.{FirstTells, least_place, problem_of_row, want_place};

use crate::first::{First, RowProblem};
use crate::marks::Marks;
use crate::story::Story;
use pl_decide::Problem;
use pl_events::{HostEnd, Loss, Stop};
use pl_urn::Urn;
use std::alloc::Global;
use std::fmt::{Debug, Formatter, Write};
use std::marker::Model;
use std::snapshot::Snapshot;
use std::{fmt, mem};

/// The problems of a run in order, each with the position of its event. In memory are the first other than want of
/// memory, and where memory was wanted first; no call but `add` and `add_all` keeps memory, and none wants any.
#[derive(Drop)]
pub struct Troubles {
    list: Snapshot<Story>,
    marks: Marks,
}

impl Model for Troubles {
    ghost use Rattle.std.specs.Prelude.{ℕ, List};
    ghost use Rattle.std.specs.Coded.{codes};
    ghost use Rattle.pl_decide.specs.contracts.problem.Problem as row;
    ghost use Rattle.pl_decide.specs.declared.problem.Problem as problem;

    ghost Value = { List (ℕ × problem.Problem) };

    ghost coded = { Prim.hlevel (codes, row.the_row.coded) };

    ghost use Rattle.pl_troubles.specs.Kept.{listed_by, IsKept};

    ghost view = { listed_by };

    ghost invariant = { IsKept };
}

/// The story so far, taken out of its place.
fn take_story(list: &mut Snapshot<Story>) -> Snapshot<Story>
    ensures { result.value ≡ list.old.value }
{
    mem::replace(list, Snapshot::of(&Story::Start))
}

impl Debug for Troubles {
    fn fmt<W: Write>(&self, f: &mut Formatter<W>) -> fmt::Result {
        self.marks.fmt(f)
    }
}

impl Troubles {
    /// No problem.
    pub fn new(_alloc: Global) -> Troubles
        ensures { result ≡ [] }
    {
        Troubles {
            list: Snapshot::of(&Story::Start),
            marks: Marks::none(),
        }
    }

    /// A problem more. Its memory is kept if it is the first other than want of memory.
    pub fn add(&mut self, at: u64, problem: Problem)
        ensures { self.new ≡ self.old ++ (at, problem) ∷ [] }
    {
        let before = take_story(&mut self.list);
        self.list = Snapshot::of(&Story::Made(at, Snapshot::of(&problem), before));
        self.marks.made(at, problem);
    }

    /// A loss on a lane.
    pub fn add_loss(&mut self, at: u64, lane: u64, why: &Loss)
        ensures { self.new ≡ self.old ++ (at, problem_of_loss lane why.now) ∷ [] }
    {
        let before = take_story(&mut self.list);
        self.list = Snapshot::of(&Story::Lost(at, lane, Snapshot::of(why), before));
        self.marks.loss(at, lane, why);
    }

    /// A host's end; its word of success is no problem.
    pub fn add_end(&mut self, at: u64, end: &HostEnd)
        ensures { self.new ≡ self.old ++ at_position at (option_list (problem_of_end end.now)) }
    {
        let before = take_story(&mut self.list);
        self.list = Snapshot::of(&Story::Ended(at, Snapshot::of(end), before));
        self.marks.end(at, end);
    }

    /// A stop.
    pub fn add_stop(&mut self, at: u64, stop: Stop)
        ensures { self.new ≡ self.old ++ (at, problem_of_stop stop) ∷ [] }
    {
        let before = take_story(&mut self.list);
        self.list = Snapshot::of(&Story::Stopped(at, stop, before));
        self.marks.stop(at, stop);
    }

    /// What is wrong with a row of the state at the start that is left at the end of the run. Of the row's URN nothing
    /// is kept in memory.
    pub fn add_left(&mut self, at: u64, what: RowProblem, row: u64, urn: &Urn)
        ensures { self.new ≡ self.old ++ (at, problem_of_row what urn.now) ∷ [] }
    {
        let before = take_story(&mut self.list);
        self.list = Snapshot::of(&Story::Left(at, what, Snapshot::of(urn), before));
        self.marks.left(at, what, row);
    }

    /// Problems of one event, in the order in which they count.
    pub fn add_all(&mut self, at: u64, problems: Vec<Problem>)
        ensures { self.new ≡ self.old ++ at_position at problems.items }
    {
        for problem in problems {
            self.add(at, problem);
        }
    }
}

impl Troubles {
    /// Whether a problem stands.
    pub fn any(&self) -> bool
        ensures { result ≡ not (length self.now == 0) }
    {
        self.marks.any()
    }

    /// The first problem other than want of memory.
    pub fn first(&self) -> Option<&First>
        ensures { FirstTells (option_copied result) (find (λ placed. is_no_want placed.1) self.now) }
    {
        self.marks.first.as_ref()
    }

    /// The position at which memory was wanted first.
    pub fn wanted(&self) -> Option<u64>
        ensures { result ≡ want_place self.now }
    {
        self.marks.wanted
    }

    /// The position of the least problem: of the first other than want of memory, or else of the first.
    pub fn problem_at(&self) -> Option<u64>
        ensures { result ≡ least_place self.now }
    {
        match &self.marks.first {
            Some(first) => Some(first.place()),
            None => self.marks.wanted,
        }
    }
}
