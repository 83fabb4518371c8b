ghost use Rattle.std.specs.Prelude.{◌≡◌, ◌++◌, [], ◌∷◌, Some, codes, reverse, IfOk};
ghost use Rattle.pl_urn.specs.Grammar.{IsScope};
ghost use Rattle.pl_world.specs.Told.{IsFresh};
ghost use Rattle.pl_engine.specs.Content.{HasNothing, IsBegun};
ghost use Rattle.pl_engine.specs.Evidence.{HasServed, HasWorked};
ghost use Rattle.pl_engine.specs.Headline.{IsFinal, command_words, start_outcome_of, status_code};

use crate::evidence::Leaves;
use crate::finish::{refused, status_of};
use crate::journal::Journal;
use crate::log::Log;
use crate::post::Writing;
use crate::serve::serve;
use crate::world::{Finished, RunRecord, World};
use pl_decide::Outcome;
use pl_state::{Entries, Snapshot};
use pl_value::{OutOfMemory, Text, Words};
use pl_world::{Pipe, Sink, Spawner, Store, Trouble};
use std::alloc::Global;
use std::sync::Wait;

/// The host's command: its words, and then those that name the stack and the project.
fn host_command(
    alloc: Global,
    host: Words,
    stack: &Text,
    project: &Text,
) -> Result<Words, OutOfMemory>
    ensures { IfOk result (λ words. words ≡ command_words host stack.now project.now) }
{
    let mut words = host;
    words.push(Text::from_str(alloc, "--stack")?)?;
    words.push(stack.copy()?)?;
    words.push(Text::from_str(alloc, "--project")?)?;
    words.push(project.copy()?)?;
    Ok(words)
}

/// The outcome of a run: that of the least problem, or want of memory, or success.
fn final_outcome(outcome: Option<Outcome>, wanted: bool) -> Outcome
    ensures { IsFinal outcome wanted result }
{
    match outcome {
        Some(outcome) => outcome,
        None => {
            if wanted {
                Outcome::OutOfMemory
            } else {
                Outcome::Done
            }
        }
    }
}

/// What a served host leaves.
struct Served<Q: Pipe> {
    run: RunRecord<Q>,
    outcome: Outcome,
}

/// Serves a host that was just started, over a state that has nothing.
fn run_host<R: Wait, S: Store, B: Drop, P: Spawner, W: Sink, I: Drop, G: Drop>(
    rt: &R,
    alloc: Global,
    state: Snapshot,
    stack: Text,
    project: Text,
    history: Log,
    halves: (P::Pipe, P::Pipe),
    world: World<S, B, P, W, I, G>,
) -> Finished<S, B, P, W, I, G>
    requires stack { IsScope stack }
    requires state { HasNothing state }
    requires project { IsScope project }
    requires history { history ≡ [] }
    requires reading { IsFresh (P.Pipe.given halves.0) (P.Pipe.taken halves.0) (P.Pipe.faults halves.0) (P.Pipe.ends halves.0) }
    requires writing { IsFresh (P.Pipe.given halves.1) (P.Pipe.taken halves.1) (P.Pipe.faults halves.1) (P.Pipe.ends halves.1) }
    ensures evidence { HasServed stack project (⟦<Finished<S, B, P, W, I, G> as Leaves>⟧.evidence world result) }
    ensures base { result.run.base ≡ state }
    ensures kept { result.world ≡ record world { store = result.world.store } }
    ensures status { result.status ≡ status_code result.outcome }
{
    let (mut reading, half) = halves;
    let mut world = world;
    let mut journal = Journal::new(alloc, history, state, stack, project);
    let mut writing = Writing {
        half,
        failed: false,
    };
    serve(
        rt,
        alloc,
        &mut journal,
        &mut world.store,
        &mut reading,
        &mut writing,
    );
    let Served { run, outcome } = close(alloc, journal, reading, writing);
    let status = status_of(&outcome);
    Finished {
        status,
        outcome,
        world,
        run,
    }
}

/// Turns the journal of a run that is over into its record and outcome.
fn close<Q: Pipe>(alloc: Global, journal: Journal, reading: Q, writing: Writing<Q>) -> Served<Q>
    ensures history { reverse result.run.history.items ≡ journal.history }
    ensures marks { result.run.marks.items ≡ journal.marks.items }
    ensures base { result.run.base ≡ record journal.state { entries = [] } }
    ensures host { result.run.host ≡ Some (reading, writing.half) }
    ensures wanted { result.run.wanted ≡ journal.wanted }
    ensures outcome { IsFinal journal.outcome journal.wanted result.outcome }
{
    let Journal {
        history,
        marks,
        state,
        texts: _,
        stack: _,
        project: _,
        last: _,
        halted: _,
        stopped: _,
        outcome,
        wanted,
    } = journal;
    let Snapshot {
        stack,
        entries: _,
        pending,
        rest,
    } = state;
    let Writing { half, failed: _ } = writing;
    let base = Snapshot {
        stack,
        entries: Entries::new(alloc),
        pending,
        rest,
    };
    let run = RunRecord {
        base,
        history: history.into_events(),
        marks,
        host: Some((reading, half)),
        wanted,
    };
    Served {
        run,
        outcome: final_outcome(outcome, wanted),
    }
}

/// Starts the host and serves it.
pub fn start<R: Wait, S: Store, B: Drop, P: Spawner<Cover = S::Cover>, W: Sink, I: Drop, G: Drop>(
    rt: &R,
    alloc: Global,
    state: Snapshot,
    stack: Text,
    project: Text,
    host: Words,
    world: World<S, B, P, W, I, G>,
) -> Finished<S, B, P, W, I, G>
    requires stack { IsScope stack }
    requires project { IsScope project }
    requires state { HasNothing state }
    requires begun { IsBegun (S.story world.store) stack state }
    ensures evidence { HasWorked stack project (command_words host stack project) (⟦<Finished<S, B, P, W, I, G> as Leaves>⟧.evidence world result) }
    ensures kept { result.world ≡ record world { store = result.world.store; spawner = result.world.spawner } }
    ensures status { result.status ≡ status_code result.outcome }
{
    let (Ok(words), Ok(history)) = (host_command(alloc, host, &stack, &project), Log::new(alloc))
    else {
        return refused(alloc, Outcome::OutOfMemory, true, world);
    };
    let mut world = world;
    match world.spawner.start_host(alloc, &words) {
        Ok(halves) => run_host(rt, alloc, state, stack, project, history, halves, world),
        Err(trouble) => refused(alloc, start_outcome(trouble), false, world),
    }
}

fn start_outcome(trouble: Trouble) -> Outcome
    ensures { result ≡ start_outcome_of trouble }
{
    match trouble {
        Trouble::Failed => Outcome::StartFault,
        Trouble::OutOfMemory => Outcome::OutOfMemory,
    }
}
