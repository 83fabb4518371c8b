ghost use Rattle.std.specs.Prelude.{◌≡◌, Some, map, string_bytes, IfOk};
ghost use Rattle.pl_urn.specs.Grammar.{IsScope};
ghost use Rattle.pl_world.specs.Counts.{Rose};
ghost use Rattle.pl_cli.specs.declared.table.OptionName.TheVariants.{Stack as stack_option, Project as project_option};
ghost use Rattle.pl_cli.specs.Place.{given_value};
ghost use Rattle.pl_cli.specs.Reading.{engine_words, host_words};
ghost use Rattle.pl_engine.specs.Evidence as evident;
ghost use Rattle.pl_engine.specs.Evidence.{HasWorked, IsEvident};
ghost use Rattle.pl_engine.specs.Headline.{command_words, status_code};
ghost use Rattle.pl_engine.specs.Printed.{IsPrinted, IsUp};

use crate::content::read_base;
use crate::evidence::Leaves;
use crate::finish::refused;
use crate::hostless::offline;
use crate::start::start;
use crate::world::{Finished, OfflineAnswer, World};
use pl_cli::{Command, RunWords, WordFault, read_words};
use pl_decide::Outcome;
use pl_value::OutOfMemory;
use pl_world::{Gate, Ids, Sink, Spawner, Store};
use std::alloc::Global;
use std::sync::Wait;
use std::thread::Threads;

/// Runs `up` over a state that has nothing.
fn up<R: Wait, S: Store, B: Drop, P: Spawner<Cover = S::Cover>, W: Sink, I: Drop, G: Drop>(
    rt: &R,
    alloc: Global,
    run: RunWords,
    world: World<S, B, P, W, I, G>,
) -> Finished<S, B, P, W, I, G>
    requires stack { IsScope run.stack }
    requires project { IsScope run.project }
    ensures evidence { HasWorked run.stack run.project (command_words run.host run.stack run.project)
        (⟦<Finished<S, B, P, W, I, G> as Leaves>⟧.evidence world result) }
    ensures kept { result.world ≡ record world { store = result.world.store; spawner = result.world.spawner } }
    ensures status { result.status ≡ status_code result.outcome }
{
    let RunWords {
        stack,
        project,
        host,
        ..
    } = run;
    let mut world = world;
    let content = read_base(alloc, &mut world.store, &stack);
    match content {
        Ok(state) => start(rt, alloc, state, stack, project, host, world),
        Err(outcome) => refused(alloc, outcome, false, world),
    }
}

/// The words of `up`.
fn up_words(alloc: Global, words: &[String]) -> Result<RunWords, OutOfMemory>
    requires { IsUp (map string_bytes words.now) }
    ensures stack { IfOk result (λ run. given_value stack_option (engine_words (map string_bytes words.now)) ≡ Some run.stack) }
    ensures project { IfOk result (λ run. given_value project_option (engine_words (map string_bytes words.now)) ≡ Some run.project) }
    ensures stack_scope { IfOk result (λ run. IsScope run.stack) }
    ensures project_scope { IfOk result (λ run. IsScope run.project) }
    ensures host { IfOk result (λ run. run.host ≡ host_words (map string_bytes words.now)) }
{
    match read_words(alloc, words) {
        Ok(Command::Up(run)) => Ok(run),
        Ok(Command::State { .. }) => unreachable!(),
        Err(WordFault::BadWords(_)) => unreachable!(),
        Err(WordFault::OutOfMemory) => Err(OutOfMemory),
    }
}

/// Runs `up` by its words.
fn run_up<R: Wait, S: Store, B: Drop, P: Spawner<Cover = S::Cover>, W: Sink, I: Drop, G: Drop>(
    rt: &R,
    alloc: Global,
    words: &[String],
    world: World<S, B, P, W, I, G>,
) -> Finished<S, B, P, W, I, G>
    requires { IsUp (map string_bytes words.now) }
    ensures evidence { IsEvident (map string_bytes words.now) (⟦<Finished<S, B, P, W, I, G> as Leaves>⟧.evidence world result) }
    ensures kept { result.world ≡ record world { store = result.world.store; spawner = result.world.spawner } }
    ensures status { result.status ≡ status_code result.outcome }
{
    match up_words(alloc, words) {
        Ok(run) => up(rt, alloc, run, world),
        Err(OutOfMemory) => refused(alloc, Outcome::OutOfMemory, true, world),
    }
}

/// Carries out the command of the words over the world, and hands the world back with the record of the
/// run. It may wait for the host.
pub fn engine<
    R: Threads + Wait + Sync,
    S: Store,
    B: Store,
    P: Spawner<Cover = S::Cover>,
    W: Sink,
    I: Ids,
    G: Gate,
>(
    rt: &R,
    alloc: Global,
    words: &[String],
    world: World<S, B, P, W, I, G>,
) -> Finished<S, B, P, W, I, G>
    ensures legal { evident.IsLegal (map string_bytes words.now) (⟦<Finished<S, B, P, W, I, G> as Leaves>⟧.evidence world result) }
    ensures saved { evident.IsSaved (map string_bytes words.now) (⟦<Finished<S, B, P, W, I, G> as Leaves>⟧.evidence world result) }
    ensures host_lines { evident.HasLines (map string_bytes words.now) (⟦<Finished<S, B, P, W, I, G> as Leaves>⟧.evidence world result) }
    ensures causes { evident.IsCaused (⟦<Finished<S, B, P, W, I, G> as Leaves>⟧.evidence world result) }
    ensures start_cause { evident.IsStartCaused (⟦<Finished<S, B, P, W, I, G> as Leaves>⟧.evidence world result) }
    ensures components { evident.IsOfComponents (map string_bytes words.now) (⟦<Finished<S, B, P, W, I, G> as Leaves>⟧.evidence world result) }
    ensures started { evident.IsStarted (map string_bytes words.now) (⟦<Finished<S, B, P, W, I, G> as Leaves>⟧.evidence world result) }
    ensures outcome { evident.IsOutcome (map string_bytes words.now) (⟦<Finished<S, B, P, W, I, G> as Leaves>⟧.evidence world result) }
    ensures base { evident.IsBase (map string_bytes words.now) (⟦<Finished<S, B, P, W, I, G> as Leaves>⟧.evidence world result) }
    ensures one_way { evident.IsOneWay (⟦<Finished<S, B, P, W, I, G> as Leaves>⟧.evidence world result) }
    ensures side { result.world.side ≡ world.side }
    ensures sink { IsUp (map string_bytes words.now) → result.world.sink ≡ world.sink }
    ensures printed { (IsUp (map string_bytes words.now) → ⊥) →
        IsPrinted (map string_bytes words.now) (S.story world.store) (Rose (W.faults world.sink) (W.faults result.world.sink)) result.run.wanted
        (W.written world.sink) (W.written result.world.sink) result.outcome }
    ensures ids { result.world.ids ≡ world.ids }
    ensures gate { result.world.gate ≡ world.gate }
    ensures status { result.status ≡ status_code result.outcome }
{
    match offline(alloc, words, world) {
        OfflineAnswer::Served(finished) => finished,
        OfflineAnswer::NotOffline(world) => run_up(rt, alloc, words, world),
    }
}
