ghost use Rattle.std.specs.Prelude.{◌≡◌, ◌≤◌, [], None, false, if◌then◌else◌, map, string_bytes, IfOk};
ghost use Rattle.pl_world.specs.Counts.{Rose};
ghost use Rattle.pl_engine.specs.Headline.{IsOfState, no_state, status_code};
ghost use Rattle.pl_engine.specs.Offline.{IfNotOffline, IfServed};
ghost use Rattle.pl_engine.specs.Printed.{IsListed, IsPrinted, IsShown, IsStateServed, IsUp, lines_of, state_or_none, told_line};

use crate::content::read_state;
use crate::finish::refused;
use crate::world::{Finished, OfflineAnswer, World};
use pl_cli::{Command, StateWork, WordFault, read_words, spells_state};
use pl_decide::Outcome;
use pl_show::{print, resource_lines, sound_line, stopped};
use pl_state::Snapshot;
use pl_value::{OutOfMemory, Text};
use pl_world::{Sink, Spawner, Store, Trouble};
use std::alloc::Global;

/// Serves the words where no host is started for them: those of `state`, and those that are no command. It waits for
/// nobody.
pub fn offline<S: Store, B: Drop, P: Spawner<Cover = S::Cover>, W: Sink, I: Drop, G: Drop>(
    alloc: Global,
    words: &[String],
    world: World<S, B, P, W, I, G>,
) -> OfflineAnswer<Finished<S, B, P, W, I, G>, World<S, B, P, W, I, G>>
    ensures handed_back { IfNotOffline (λ back. back ≡ world) result }
    ensures not_offline { IfNotOffline (λ back. IsUp (map string_bytes words.now)) result }
    ensures outcome { IfServed (λ done. IsOfState (map string_bytes words.now) (S.story world.store)
        (Rose (S.faults world.store) (S.faults done.world.store)) (Rose (W.faults world.sink) (W.faults done.world.sink)) done.outcome) result }
    ensures printed { IfServed (λ done. (IsUp (map string_bytes words.now) → ⊥) →
        IsPrinted (map string_bytes words.now) (S.story world.store) (Rose (W.faults world.sink) (W.faults done.world.sink)) done.run.wanted
        (W.written world.sink) (W.written done.world.sink) done.outcome) result }
    ensures sink { IfServed (λ done. IsUp (map string_bytes words.now) → done.world.sink ≡ world.sink) result }
    ensures story { IfServed (λ done. S.story done.world.store ≡ S.story world.store) result }
    ensures kept { IfServed (λ done. done.world ≡ record world { store = done.world.store; sink = done.world.sink }) result }
    ensures history { IfServed (λ done. done.run.history.items ≡ []) result }
    ensures marks { IfServed (λ done. done.run.marks.items ≡ []) result }
    ensures base { IfServed (λ done. done.run.base ≡ no_state) result }
    ensures host { IfServed (λ done. done.run.host ≡ None) result }
    ensures status { IfServed (λ done. done.status ≡ status_code done.outcome) result }
{
    match read_words(alloc, words) {
        Ok(Command::Up(_)) => OfflineAnswer::NotOffline(world),
        Ok(Command::State { work, .. }) => OfflineAnswer::Served(serve_state(alloc, work, world)),
        Err(WordFault::BadWords(place)) => {
            let tells = spells_state(words);
            OfflineAnswer::Served(stop(alloc, tells, Outcome::BadWords { place }, world))
        }
        Err(WordFault::OutOfMemory) => {
            OfflineAnswer::Served(refused(alloc, Outcome::OutOfMemory, true, world))
        }
    }
}

/// Carries out a work of `state`.
fn serve_state<S: Store, B: Drop, P: Spawner, W: Sink, I: Drop, G: Drop>(
    alloc: Global,
    work: StateWork,
    world: World<S, B, P, W, I, G>,
) -> Finished<S, B, P, W, I, G>
    ensures served { IsStateServed work (S.story world.store) (Rose (S.faults world.store) (S.faults result.world.store))
        (Rose (W.faults world.sink) (W.faults result.world.sink)) result.run.wanted (W.written world.sink) (W.written result.world.sink) result.outcome }
    ensures story { S.story result.world.store ≡ S.story world.store }
    ensures kept { result.world ≡ record world { store = result.world.store; sink = result.world.sink } }
    ensures history { result.run.history.items ≡ [] }
    ensures marks { result.run.marks.items ≡ [] }
    ensures base { result.run.base ≡ no_state }
    ensures host { result.run.host ≡ None }
    ensures status { result.status ≡ status_code result.outcome }
{
    let World {
        mut store,
        side,
        spawner,
        sink,
        ids,
        gate,
    } = world;
    let found = read_state(alloc, &mut store);
    let world = World {
        store,
        side,
        spawner,
        sink,
        ids,
        gate,
    };
    match found {
        Ok(found) => show(alloc, work, found, world),
        Err(outcome) => stop(alloc, true, outcome, world),
    }
}

/// Prints what the work tells of what was read.
fn show<S: Store, B: Drop, P: Spawner, W: Sink, I: Drop, G: Drop>(
    alloc: Global,
    work: StateWork,
    found: Option<Snapshot>,
    world: World<S, B, P, W, I, G>,
) -> Finished<S, B, P, W, I, G>
    ensures listed { IsListed (Rose (W.faults world.sink) (W.faults result.world.sink)) (lines_of work (state_or_none found))
        (W.written world.sink) (W.written result.world.sink) result.outcome }
    ensures kept { result.world ≡ record world { sink = result.world.sink } }
    ensures history { result.run.history.items ≡ [] }
    ensures marks { result.run.marks.items ≡ [] }
    ensures base { result.run.base ≡ no_state }
    ensures host { result.run.host ≡ None }
    ensures status { result.status ≡ status_code result.outcome }
{
    let mut world = world;
    let outcome = print_lines(alloc, &mut world.sink, work, found);
    let wanted = matches!(outcome, Outcome::OutOfMemory);
    refused(alloc, outcome, wanted, world)
}

/// Prints the lines of the work; the outcome tells whether they all went out.
fn print_lines<W: Sink>(
    alloc: Global,
    sink: &mut W,
    work: StateWork,
    found: Option<Snapshot>,
) -> Outcome
    ensures listed { IsListed (Rose (W.faults sink.old) (W.faults sink.new)) (lines_of work (state_or_none found))
        (W.written sink.old) (W.written sink.new) result }
    ensures faults_never_fall { W.faults sink.old ≤ W.faults sink.new }
{
    let Ok(lines) = lines_of(alloc, work, found) else {
        return Outcome::OutOfMemory;
    };
    match print(alloc, sink, lines.as_str().as_bytes()) {
        Ok(()) => Outcome::Done,
        Err(Trouble::Failed) => Outcome::SinkFault,
        Err(Trouble::OutOfMemory) => Outcome::OutOfMemory,
    }
}

/// The lines of the work over what was read.
fn lines_of(alloc: Global, work: StateWork, found: Option<Snapshot>) -> Result<Text, OutOfMemory>
    ensures { IfOk result (λ lines. lines ≡ lines_of work (state_or_none found)) }
{
    let state = match found {
        Some(state) => state,
        None => Snapshot::new(alloc, Text::from_string(String::new(alloc)))?,
    };
    match work {
        StateWork::List => resource_lines(alloc, state.entries.as_slice()),
        StateWork::Check => sound_line(alloc, &state),
    }
}

/// Ends with the outcome, and prints the line of what stopped the command where it is asked for.
fn stop<S: Store, B: Drop, P: Spawner, W: Sink, I: Drop, G: Drop>(
    alloc: Global,
    tells: bool,
    outcome: Outcome,
    world: World<S, B, P, W, I, G>,
) -> Finished<S, B, P, W, I, G>
    ensures outcome { result.outcome ≡ outcome }
    ensures shown { IsShown (Rose (W.faults world.sink) (W.faults result.world.sink)) result.run.wanted
        (W.written world.sink) (W.written result.world.sink) (if tells then told_line outcome else []) }
    ensures kept { result.world ≡ record world { sink = result.world.sink } }
    ensures history { result.run.history.items ≡ [] }
    ensures marks { result.run.marks.items ≡ [] }
    ensures base { result.run.base ≡ no_state }
    ensures host { result.run.host ≡ None }
    ensures status { result.status ≡ status_code outcome }
{
    let mut world = world;
    let wanted = print_stop(alloc, &mut world.sink, tells, &outcome);
    refused(alloc, outcome, wanted, world)
}

/// Prints the line of what stopped a command where it is asked for. Answers whether memory was wanted.
fn print_stop<W: Sink>(alloc: Global, sink: &mut W, tells: bool, outcome: &Outcome) -> bool
    ensures shown { IsShown (Rose (W.faults sink.old) (W.faults sink.new)) result
        (W.written sink.old) (W.written sink.new) (if tells then told_line outcome.now else []) }
    ensures faults_never_fall { W.faults sink.old ≤ W.faults sink.new }
{
    if !tells {
        return false;
    }
    let Ok(line) = told_line(alloc, outcome) else {
        return true;
    };
    match print(alloc, sink, line.as_str().as_bytes()) {
        Ok(()) => false,
        Err(Trouble::Failed) => false,
        Err(Trouble::OutOfMemory) => true,
    }
}

/// The line of what stopped a command; none for want of memory.
fn told_line(alloc: Global, outcome: &Outcome) -> Result<Text, OutOfMemory>
    ensures { IfOk result (λ line. line ≡ told_line outcome.now) }
{
    match outcome {
        Outcome::OutOfMemory => Ok(Text::from_string(String::new(alloc))),
        _ => stopped(alloc, outcome),
    }
}
