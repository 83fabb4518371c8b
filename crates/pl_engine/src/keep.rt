ghost use Rattle.std.specs.Prelude.{◌≡◌, ◌≤◌, ◌++◌, [], ◌∷◌, ℕ, List, Option, false, true, length, IfErr, IfOk, OnErr, OnOk};
ghost use Rattle.pl_checkpoint_text.specs.Spelled.{checkpoint_text};
ghost use Rattle.pl_world.specs.Counts.{Rose};
ghost use Rattle.pl_world.specs.Told.{Grew, IsKeptOrAdded};
ghost use Rattle.pl_components.specs.Requests.{goal_at, goals_of};
ghost use Rattle.pl_components.specs.Entries.{entry_if};
ghost use Rattle.pl_components.specs.Due.{is_keep_due};
ghost use Rattle.pl_engine.specs.Spelled.{host_spelling};
ghost use Rattle.pl_engine.specs.Journal.{Consistent, run_of};
ghost use Rattle.pl_engine.specs.Caused.{SameAnswerFaults, StoreCaused};
ghost use Rattle.pl_engine.specs.Kept.{IfFault, IfWant, KeepsStored, Recorded};

use crate::journal::Journal;
use pl_events::Stop;
use pl_state::Entry;
use pl_world::{Store, Trouble};
use std::alloc::Global;

/// Records the entry of a goal and replaces the checkpoint; what fails becomes a stop. Answers whether
/// the entry was recorded.
pub fn keep<S: Store>(
    alloc: Global,
    journal: &mut Journal,
    store: &mut S,
    goal: u64,
    entry: Entry,
) -> bool
    requires consistent { Consistent (run_of journal.old) journal.old }
    requires running { journal.old.stopped ≡ false }
    requires due { is_keep_due (run_of journal.old) journal.old.history goal ≡ true }
    requires entry { entry_if (goal_at (goals_of (run_of journal.old) journal.old.history) goal) ≡ entry ∷ [] }
    ensures consistent { Consistent (run_of journal.old) journal.new }
    ensures recorded { Recorded result goal journal.old.history journal.new.history }
    ensures wanted { journal.old.wanted ≡ true → journal.new.wanted ≡ true }
    ensures faults_never_fall { S.faults store.old ≤ S.faults store.new }
    ensures store_caused { StoreCaused journal.old.history journal.new.history (S.faults store.old) (S.faults store.new) }
    ensures same_answers { SameAnswerFaults journal.old.history journal.new.history }
    ensures stored { KeepsStored (run_of journal.old) journal.old journal.new
        (S.faults store.old) (S.faults store.new) (S.story store.old) (S.story store.new) }
{
    match journal.record(alloc, goal, entry) {
        Ok(()) => match save(alloc, journal, store) {
            Ok(()) => true,
            Err(stop) => {
                journal.stop(stop);
                true
            }
        },
        Err(_) => {
            journal.stop(Stop::NoMemory);
            false
        }
    }
}

/// Replaces the checkpoint by the state, and marks that it was replaced.
fn save<S: Store>(alloc: Global, journal: &mut Journal, store: &mut S) -> Result<(), Stop>
    requires consistent { Consistent (run_of journal.old) journal.old }
    ensures kept { journal.new ≡ record journal.old { marks = journal.new.marks } }
    ensures marked { OnOk result (journal.new.marks.items ≡ journal.old.marks.items ++ length journal.old.history ∷ []) }
    ensures unmarked { OnErr result (journal.new.marks.items ≡ journal.old.marks.items) }
    ensures added { OnOk result (Grew (S.story store.old) (S.story store.new) (checkpoint_text journal.old.state ∷ [])) }
    ensures fault { IfErr result (λ stop. IfFault stop (Rose (S.faults store.old) (S.faults store.new))) }
    ensures arrived { IfErr result (λ stop. IfFault stop
        (IsKeptOrAdded (S.story store.old) (S.story store.new) (checkpoint_text journal.old.state))) }
    ensures want { IfErr result (λ stop. IfWant stop (S.story store.new ≡ S.story store.old)) }
    ensures faults_never_fall { S.faults store.old ≤ S.faults store.new }
{
    let Ok(text) = journal.text(alloc) else {
        return Err(Stop::NoMemory);
    };
    if journal.marks.reserve(1).is_err() {
        return Err(Stop::NoMemory);
    }
    match store.replace(alloc, text.as_slice()) {
        Ok(_cover) => {
            journal.marks.push(journal.history.len() as u64).unwrap();
            Ok(())
        }
        Err(Trouble::Failed) => Err(Stop::StoreFault),
        Err(Trouble::OutOfMemory) => Err(Stop::NoMemory),
    }
}
