ghost use Rattle.pl_model.specs.Problems.{problem_of_end, problem_of_stop};
ghost use Rattle.std.specs.Prelude.{◌≡◌, ◌+◌, ◌++◌, ◌≤◌, [], ◌∷◌, true, false, ◌||◌, Some, None, is_some, length, map, take, IfErr, IfOk, OnErr, OnOk};
ghost use Rattle.pl_checkpoint_text.specs.Pieces.{entry_text};
ghost use Rattle.pl_checkpoint_text.specs.Spelled.{checkpoint_text};
ghost use Rattle.pl_engine.specs.Content.{HasNothing};
ghost use Rattle.pl_engine.specs.Spelled.{host_spelling};
ghost use Rattle.pl_engine.specs.Journal.{Consistent, end_event, kept_event, posted_event, run_of, stopped_by, told_event};
ghost use Rattle.pl_events.specs.Closing.{has_host_end};
ghost use Rattle.pl_components.specs.Requests.{goal_at, goals_of, may_be_next};
ghost use Rattle.pl_components.specs.Entries.{entry_if};
ghost use Rattle.pl_components.specs.Due.{is_keep_due, is_post_due};
ghost use Rattle.pl_components.specs.Legal.{IsSpelled, StopFits};
ghost use Rattle.pl_model.specs.Causes.{is_want_end, is_want_stop};
ghost use Rattle.pl_components.specs.Problems.{first_of, outcome_of_event};
ghost use Rattle.pl_model.specs.Outcomes.{outcome_of_problem};

use crate::log::{Log, REGISTRAR};
use pl_checkpoint::{join_text, spell_entry};
use pl_decide::{Child, Outcome, Problem};
use pl_events::{Event, HostEnd, Request, Stop, What};
use pl_state::{Entries, Entry, Registration, Snapshot};
use pl_value::{Bytes, OutOfMemory, Text, Texts};
use std::alloc::Global;
use std::mem;

/// The run's record as it grows, with what is kept of it for the next step.
#[derive(Debug, Drop)]
pub struct Journal {
    pub history: Log,
    /// The lengths of the history at which a replacement of the checkpoint succeeded.
    pub marks: Vec<u64>,
    /// The state that the history comes to.
    pub state: Snapshot,
    /// The texts of the state's entries, for the next save.
    pub texts: Texts,
    pub stack: Text,
    pub project: Text,
    /// The number of the newest request.
    pub last: u64,
    /// Whether a problem stands.
    pub halted: bool,
    /// Whether a stop stands.
    pub stopped: bool,
    /// The outcome of the least problem, want of memory aside.
    pub outcome: Option<Outcome>,
    /// Whether memory was wanted.
    pub wanted: bool,
}

/// The outcome of a stop at this position; none for want of memory.
fn outcome_of_stop(at: u64, stop: Stop) -> Option<Outcome>
    ensures { result ≡ outcome_of_problem at (problem_of_stop stop) }
{
    match stop {
        Stop::StoreFault => Some(Outcome::StoreFault),
        Stop::StartFault => Some(Outcome::StartFault),
        Stop::HostPipeFault => Some(Outcome::PipeFault(Child::Host)),
        Stop::TooManyResources => Some(Outcome::TooManyResources),
        Stop::MessageTooLong => Some(Outcome::Failed {
            at,
            problem: Problem::MessageTooLong,
        }),
        Stop::NoMemory => None,
    }
}

/// Keeps the first outcome if there is one, and else takes the second.
fn settle(first: &mut Option<Outcome>, second: Option<Outcome>)
    ensures { first.new ≡ first_of first.old second }
{
    if first.is_none() {
        *first = second;
    }
}

/// Whether the host's end is a problem, and whether it is want of memory.
fn what_end_is(end: &HostEnd) -> (bool, bool)
    ensures problem { result.0 ≡ is_some (problem_of_end end.now) }
    ensures want { result.1 ≡ is_want_end end.now }
{
    match end {
        HostEnd::Success => (false, false),
        HostEnd::NoMemory => (true, true),
        HostEnd::Error(_) | HostEnd::Ended | HostEnd::PipeFault | HostEnd::BadFrame(_) => (
            true, false,
        ),
    }
}

fn is_want(stop: Stop) -> bool
    ensures { result ≡ is_want_stop stop }
{
    match stop {
        Stop::NoMemory => true,
        Stop::StoreFault
        | Stop::StartFault
        | Stop::HostPipeFault
        | Stop::TooManyResources
        | Stop::MessageTooLong => false,
    }
}

/// Adds an entry and its text; after `OutOfMemory` neither was added.
fn add_entry(
    alloc: Global,
    entries: &mut Entries,
    texts: &mut Texts,
    entry: Entry,
) -> Result<(), OutOfMemory>
    requires texts { texts.old ≡ map entry_text entries.old }
    ensures texts { texts.new ≡ map entry_text entries.new }
    ensures added { OnOk result (entries.new ≡ entries.old ++ entry ∷ []) }
    ensures unchanged { OnErr result (entries.new ≡ entries.old) }
{
    let text = spell_entry(alloc, &entry)?;
    let count = entries.len();
    entries.push(entry)?;
    if texts.push(text).is_err() {
        entries.truncate(count);
        return Err(OutOfMemory);
    }
    Ok(())
}

/// Keeps the first texts; takes no memory.
fn keep_texts(alloc: Global, texts: &mut Texts, count: usize)
    ensures { texts.new ≡ take count texts.old }
{
    let mut kept = mem::replace(texts, Texts::new(alloc)).into_vec();
    kept.truncate(count);
    *texts = Texts::from_vec(kept);
}

impl Journal {
    /// A journal without an event; takes no memory.
    pub fn new(alloc: Global, history: Log, state: Snapshot, stack: Text, project: Text) -> Journal
        requires history { history ≡ [] }
        requires state { HasNothing state }
        ensures consistent { Consistent (run_of result) result }
        ensures history { result.history ≡ [] }
        ensures marks { result.marks.items ≡ [] }
        ensures state { result.state ≡ state }
        ensures stack { result.stack ≡ stack }
        ensures project { result.project ≡ project }
        ensures wanted { result.wanted ≡ false }
    {
        Journal {
            history,
            marks: Vec::new(alloc),
            state,
            texts: Texts::new(alloc),
            stack,
            project,
            last: 0,
            halted: false,
            stopped: false,
            outcome: None,
            wanted: false,
        }
    }

    /// The checkpoint's bytes of the state.
    pub fn text(&self, alloc: Global) -> Result<Bytes, OutOfMemory>
        requires consistent { Consistent (run_of self.now) self.now }
        ensures { IfOk result (λ bytes. bytes ≡ checkpoint_text self.now.state) }
    {
        let no_pending = Texts::new(alloc);
        let state = &self.state;
        join_text(alloc, &state.stack, &state.rest, &self.texts, &no_pending)
    }

    /// Appends the stop unless one stands; takes no memory.
    pub fn stop(&mut self, stop: Stop)
        requires consistent { Consistent (run_of self.old) self.old }
        requires fits { self.old.stopped ≡ false → StopFits (run_of self.old) host_spelling self.old.history stop }
        ensures consistent { Consistent (run_of self.old) self.new }
        ensures history { self.new.history ≡ stopped_by stop self.old.stopped self.old.history }
        ensures marks { self.new.marks.items ≡ self.old.marks.items }
        ensures want { self.new.wanted ≡ (self.old.wanted || is_want_stop stop) }
        ensures stopped { self.new.stopped ≡ true }
    {
        self.wanted = self.wanted || is_want(stop);
        if self.stopped {
            return;
        }
        let at = self.history.len() as u64;
        settle(&mut self.outcome, outcome_of_stop(at, stop));
        self.history.stop(stop);
        self.stopped = true;
        self.halted = true;
    }

    /// Appends the request; after `OutOfMemory` nothing was appended.
    pub fn tell(&mut self, n: u64, told: Registration) -> Result<(), OutOfMemory>
        requires consistent { Consistent (run_of self.old) self.old }
        requires host_open { has_host_end self.old.history ≡ false }
        requires spelled { IsSpelled host_spelling (Request.Register n told) }
        requires next { may_be_next (run_of self.old) self.old.history (Request.Register n told) ≡ true }
        ensures consistent { Consistent (run_of self.old) self.new }
        ensures told { OnOk result (self.new.history ≡ told_event n told ∷ self.old.history) }
        ensures unchanged { OnErr result (self.new ≡ self.old) }
        ensures marks { self.new.marks.items ≡ self.old.marks.items }
        ensures wanted { self.new.wanted ≡ self.old.wanted }
        ensures stopped { self.new.stopped ≡ self.old.stopped }
    {
        let event = Event {
            seat: REGISTRAR,
            what: What::Told(Request::Register { n, told }),
        };
        self.history.push(event)?;
        self.last = n;
        Ok(())
    }

    /// Records the entry of a goal; after `OutOfMemory` nothing was recorded.
    pub fn record(&mut self, alloc: Global, goal: u64, entry: Entry) -> Result<(), OutOfMemory>
        requires consistent { Consistent (run_of self.old) self.old }
        requires due { is_keep_due (run_of self.old) self.old.history goal ≡ true }
        requires entry { entry_if (goal_at (goals_of (run_of self.old) self.old.history) goal) ≡ entry ∷ [] }
        ensures consistent { Consistent (run_of self.old) self.new }
        ensures kept { OnOk result (self.new.history ≡ kept_event goal ∷ self.old.history) }
        ensures unchanged { OnErr result (self.new.history ≡ self.old.history) }
        ensures marks { self.new.marks.items ≡ self.old.marks.items }
        ensures wanted { self.new.wanted ≡ self.old.wanted }
        ensures stopped { self.new.stopped ≡ self.old.stopped }
    {
        let count = self.state.entries.len();
        add_entry(alloc, &mut self.state.entries, &mut self.texts, entry)?;
        let event = Event {
            seat: REGISTRAR,
            what: What::Kept { goal, fresh: None },
        };
        if self.history.push(event).is_err() {
            self.state.entries.truncate(count);
            keep_texts(alloc, &mut self.texts, count);
            return Err(OutOfMemory);
        }
        Ok(())
    }

    /// Writes down that request `n` was answered; after `OutOfMemory` nothing was written.
    pub fn posted(&mut self, n: u64) -> Result<(), OutOfMemory>
        requires consistent { Consistent (run_of self.old) self.old }
        requires due { is_post_due (run_of self.old) self.old.history n ≡ true }
        ensures consistent { Consistent (run_of self.old) self.new }
        ensures posted { OnOk result (self.new.history ≡ posted_event n ∷ self.old.history) }
        ensures unchanged { OnErr result (self.new ≡ self.old) }
        ensures marks { self.new.marks.items ≡ self.old.marks.items }
        ensures wanted { self.new.wanted ≡ self.old.wanted }
    {
        let event = Event {
            seat: REGISTRAR,
            what: What::Posted { n },
        };
        self.history.push(event)
    }

    /// Writes down the host's end, whose problem gives `outcome`; takes no memory.
    pub fn end_host(&mut self, end: HostEnd, outcome: Option<Outcome>)
        requires consistent { Consistent (run_of self.old) self.old }
        requires host_open { has_host_end self.old.history ≡ false }
        requires outcome { outcome ≡ outcome_of_event (length self.old.history) (problem_of_end end) }
        ensures consistent { Consistent (run_of self.old) self.new }
        ensures ended { self.new.history ≡ end_event end ∷ self.old.history }
        ensures marks { self.new.marks.items ≡ self.old.marks.items }
        ensures want { self.new.wanted ≡ (self.old.wanted || is_want_end end) }
    {
        let (problem, want) = what_end_is(&end);
        self.wanted = self.wanted || want;
        self.halted = self.halted || problem;
        settle(&mut self.outcome, outcome);
        self.history.end_host(end);
    }
}
