ghost use Rattle.std.specs.Prelude.{◌≡◌, ◌≤◌, [], Ok, Err, IfErr, IfOk, OnOk};
ghost use Rattle.pl_checkpoint_text.specs.Read.{reading_of};
ghost use Rattle.pl_world.specs.Counts.{Rose};
ghost use Rattle.pl_state.specs.Component.{bare_state};
ghost use Rattle.pl_engine.specs.Content.{HasNothing, IsBad, IsBegun, IsUnreadable, IsUnserved, ReadsAs};
ghost use Rattle.pl_engine.specs.Headline.{IsUnread};

use pl_checkpoint::{ReadFault, read};
use pl_decide::Outcome;
use pl_state::Snapshot;
use pl_value::{OutOfMemory, Text};
use pl_world::{Store, Trouble};
use std::alloc::Global;

/// The state that the store's content is; none where it has no content.
pub fn read_state<S: Store>(alloc: Global, store: &mut S) -> Result<Option<Snapshot>, Outcome>
    ensures read { IfOk result (ReadsAs (S.story store.old)) }
    ensures refused { IfErr result (IsUnreadable (IsBad (S.story store.old)) (Rose (S.faults store.old) (S.faults store.new))) }
    ensures story { S.story store.new ≡ S.story store.old }
    ensures faults_never_fall { S.faults store.old ≤ S.faults store.new }
{
    match store.read(alloc) {
        Ok(None) => Ok(None),
        Ok(Some(bytes)) => Ok(Some(state_in(alloc, bytes.as_slice())?)),
        Err(Trouble::Failed) => Err(Outcome::StoreFault),
        Err(Trouble::OutOfMemory) => Err(Outcome::OutOfMemory),
    }
}

fn state_in(alloc: Global, bytes: &[u8]) -> Result<Snapshot, Outcome>
    ensures read { IfOk result (λ state. reading_of bytes.now ≡ Ok state) }
    ensures refused { IfErr result (IsUnreadable (λ why. reading_of bytes.now ≡ Err why) ⊥) }
{
    match read(alloc, bytes) {
        Ok(state) => Ok(state),
        Err(ReadFault::Bad(why)) => Err(Outcome::BadCheckpoint(why)),
        Err(ReadFault::OutOfMemory) => Err(Outcome::OutOfMemory),
    }
}

/// The state that a run of this stack begins with.
pub fn read_base<S: Store>(alloc: Global, store: &mut S, stack: &Text) -> Result<Snapshot, Outcome>
    ensures begun { IfOk result (IsBegun (S.story store.old) stack.now) }
    ensures nothing { IfOk result HasNothing }
    ensures refused { IfErr result (IsUnread (S.story store.old) (Rose (S.faults store.old) (S.faults store.new))) }
    ensures story { S.story store.new ≡ S.story store.old }
    ensures faults_never_fall { S.faults store.old ≤ S.faults store.new }
{
    match read_state(alloc, store)? {
        Some(state) => served(state),
        None => new_state(alloc, stack),
    }
}

/// A state with which a run may begin: it has no entry and nothing pending.
fn served(state: Snapshot) -> Result<Snapshot, Outcome>
    ensures same { IfOk result (λ base. base ≡ state) }
    ensures nothing { OnOk result (HasNothing state) }
    ensures refused { IfErr result (IsUnserved state) }
{
    let pending = state.pending.len() as u64;
    if pending > 0 {
        return Err(Outcome::PendingOperations(pending));
    }
    if state.entries.len() > 0 {
        return Err(Outcome::NotBuilt);
    }
    Ok(state)
}

/// The state of a stack that has nothing yet.
fn new_state(alloc: Global, stack: &Text) -> Result<Snapshot, Outcome>
    ensures new { IfOk result (λ state. state ≡ bare_state stack.now []) }
    ensures memory { IfErr result (λ outcome. outcome ≡ Outcome.OutOfMemory) }
{
    let Ok(name) = stack.copy() else {
        return Err(Outcome::OutOfMemory);
    };
    match Snapshot::new(alloc, name) {
        Ok(state) => Ok(state),
        Err(OutOfMemory) => Err(Outcome::OutOfMemory),
    }
}
