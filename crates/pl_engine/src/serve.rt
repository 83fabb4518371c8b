ghost use Rattle.pl_model.specs.Problems.{problem_of_end};
ghost use Rattle.std.specs.Prelude.{◌≡◌, ◌≤◌, ◌<◌, ◌∷◌, true, false, not, ℕ, None, Some, IfOk, IfSome, length, nat_lt, []};
ghost use Rattle.pl_state.specs.declared.goal.Registration.{Registration};
ghost use Rattle.pl_components.specs.Requests.{goal_at, goal_for, goals_of, is_registration};
ghost use Rattle.pl_components.specs.Entries.{entry_if};
ghost use Rattle.pl_components.specs.HostLines.{EndsFit};
ghost use Rattle.pl_components.specs.Legal.{IsSpelled};
ghost use Rattle.pl_engine.specs.Spelled.{host_spelling};
ghost use Rattle.pl_components.specs.Due.{has_room, is_ready, NothingDue};
ghost use Rattle.pl_engine.specs.Journal.{Consistent, run_of};
ghost use Rattle.pl_engine.specs.Judged.{is_placeable, IsPlacedFor};
ghost use Rattle.pl_engine.specs.Caused.{AnswersCaused, EndCaused, SameAnswerFaults, SameStoreFaults, StoreCaused};
ghost use Rattle.pl_engine.specs.Kept.{KeepsStored};
ghost use Rattle.pl_engine.specs.Answered.{KeepsWritten};
ghost use Rattle.pl_components.specs.Saves.{must_save};
ghost use Rattle.pl_engine.specs.Stored.{Adds};
ghost use Rattle.pl_engine.specs.Running.{AtRest, EndedBy, Goes, KeepsTaken, Over, RecordedAs, Registered, Stands};
ghost use Rattle.pl_urn.specs.Grammar.{IsScope};
ghost use Rattle.pl_events.specs.Closing.{has_host_end};
ghost use Rattle.pl_components.specs.Problems.{outcome_of_event};

use crate::hear::{Heard, hear};
use crate::journal::Journal;
use crate::judge::{Placed, Refusal, place};
use crate::keep::keep;
use crate::post::{Writing, post};
use pl_decide::{Child, Outcome, Problem};
use pl_events::{HostEnd, Request, Stop};
use pl_host_msg::HostWord;
use pl_state::{MOST_RESOURCES, Registration};
use pl_urn::Urn;
use pl_value::{Bytes, OutOfMemory};
use pl_world::{Pipe, Store};
use std::alloc::Global;
use std::sync::Wait;

/// Tells a request that a problem halts, and answers so. Answers whether the host may go on.
fn halt<Q: Pipe>(
    alloc: Global,
    journal: &mut Journal,
    writing: &mut Writing<Q>,
    n: u64,
    told: Registration,
) -> bool
    requires rest { AtRest (run_of journal.old) journal.old writing.old.failed }
    requires halted { journal.old.halted ≡ true }
    requires spelled { IsSpelled host_spelling (Request.Register n told) }
    requires above { journal.old.last < n }
    ensures goes { Goes result n told (run_of journal.old) journal.old journal.new writing.new.failed }
    ensures marks { journal.new.marks.items ≡ journal.old.marks.items }
    ensures unsaved { Adds (λ what. not (must_save what)) journal.old.history journal.new.history }
    ensures wanted { journal.old.wanted ≡ true → journal.new.wanted ≡ true }
    ensures faults_never_fall { Q.faults writing.old.half ≤ Q.faults writing.new.half }
    ensures answers_caused { AnswersCaused journal.old.history journal.new.history (Q.faults writing.old.half) (Q.faults writing.new.half) }
    ensures same_store { SameStoreFaults journal.old.history journal.new.history }
    ensures taken_stays { Q.taken writing.new.half ≡ Q.taken writing.old.half }
    ensures written { KeepsWritten (run_of journal.old) journal.old journal.new writing.old.failed writing.new.failed
        (Q.faults writing.old.half) (Q.faults writing.new.half) (Q.given writing.old.half) (Q.given writing.new.half) }
{
    match journal.tell(n, told) {
        Ok(()) => {
            if !writing.failed {
                post(alloc, journal, writing, n, None);
            }
            true
        }
        Err(_) => {
            journal.end_host(HostEnd::NoMemory, None);
            false
        }
    }
}

/// Tells an accepted registration, records its entry and answers it. Answers whether the host may go
/// on.
fn accept<S: Store, Q: Pipe>(
    alloc: Global,
    journal: &mut Journal,
    store: &mut S,
    writing: &mut Writing<Q>,
    n: u64,
    told: Registration,
    placed: Placed,
) -> bool
    requires rest { AtRest (run_of journal.old) journal.old writing.old.failed }
    requires free { journal.old.halted ≡ false }
    requires spelled { IsSpelled host_spelling (Request.Register n told) }
    requires above { journal.old.last < n }
    requires placeable { is_placeable (run_of journal.old) journal.old.state.entries told ≡ true }
    requires placed { IsPlacedFor (goal_for (run_of journal.old) told) placed }
    ensures goes { Goes result n told (run_of journal.old) journal.old journal.new writing.new.failed }
    ensures faults_never_fall { S.faults store.old ≤ S.faults store.new }
    ensures half_faults_never_fall { Q.faults writing.old.half ≤ Q.faults writing.new.half }
    ensures store_caused { StoreCaused journal.old.history journal.new.history (S.faults store.old) (S.faults store.new) }
    ensures answers_caused { AnswersCaused journal.old.history journal.new.history (Q.faults writing.old.half) (Q.faults writing.new.half) }
    ensures stored { KeepsStored (run_of journal.old) journal.old journal.new
        (S.faults store.old) (S.faults store.new) (S.story store.old) (S.story store.new) }
    ensures taken_stays { Q.taken writing.new.half ≡ Q.taken writing.old.half }
    ensures written { KeepsWritten (run_of journal.old) journal.old journal.new writing.old.failed writing.new.failed
        (Q.faults writing.old.half) (Q.faults writing.new.half) (Q.given writing.old.half) (Q.given writing.new.half) }
{
    match journal.tell(n, told) {
        Ok(()) => {
            let urn = record_goal(alloc, journal, store, placed);
            post(alloc, journal, writing, n, urn);
            true
        }
        Err(_) => {
            journal.end_host(HostEnd::NoMemory, None);
            false
        }
    }
}

/// Records a new goal's entry unless the state is full, and gives its URN where it was recorded.
fn record_goal<S: Store>(
    alloc: Global,
    journal: &mut Journal,
    store: &mut S,
    placed: Placed,
) -> Option<Urn>
    requires consistent { Consistent (run_of journal.old) journal.old }
    requires running { journal.old.stopped ≡ false }
    requires ready { is_ready (run_of journal.old) journal.old.history (length journal.old.state.entries) ≡ true }
    requires entry { entry_if (goal_at (goals_of (run_of journal.old) journal.old.history) (length journal.old.state.entries)) ≡ placed.entry ∷ [] }
    requires idle { has_room (run_of journal.old) journal.old.history ≡ false → NothingDue (run_of journal.old) journal.old.history }
    ensures consistent { Consistent (run_of journal.old) journal.new }
    ensures recorded { RecordedAs placed.urn result (length journal.old.state.entries) journal.old.history journal.new.history }
    ensures wanted { journal.old.wanted ≡ true → journal.new.wanted ≡ true }
    ensures faults_never_fall { S.faults store.old ≤ S.faults store.new }
    ensures store_caused { StoreCaused journal.old.history journal.new.history (S.faults store.old) (S.faults store.new) }
    ensures same_answers { SameAnswerFaults journal.old.history journal.new.history }
    ensures stored { KeepsStored (run_of journal.old) journal.old journal.new
        (S.faults store.old) (S.faults store.new) (S.story store.old) (S.story store.new) }
{
    let goal = journal.state.entries.len() as u64;
    if goal >= MOST_RESOURCES {
        journal.stop(Stop::TooManyResources);
        return None;
    }
    let Placed { entry, urn } = placed;
    if keep(alloc, journal, store, goal, entry) {
        Some(urn)
    } else {
        None
    }
}

/// Writes down how the host's messages ended. Where the problem that this is can't be copied out for want
/// of memory, that is the end.
fn end_messages(alloc: Global, journal: &mut Journal, end: HostEnd)
    requires consistent { Consistent (run_of journal.old) journal.old }
    requires host_open { has_host_end journal.old.history ≡ false }
    ensures consistent { Consistent (run_of journal.old) journal.new }
    ensures ended { EndedBy end journal.old.history journal.new.history journal.new.wanted }
    ensures marks { journal.new.marks.items ≡ journal.old.marks.items }
    ensures same_store { SameStoreFaults journal.old.history journal.new.history }
    ensures same_answers { SameAnswerFaults journal.old.history journal.new.history }
    ensures wanted { journal.old.wanted ≡ true → journal.new.wanted ≡ true }
{
    let at = journal.history.len() as u64;
    match outcome_of_end(alloc, at, &end) {
        Ok(outcome) => journal.end_host(end, outcome),
        Err(_) => journal.end_host(HostEnd::NoMemory, None),
    }
}

/// The outcome that the end's problem gives at this position, if it gives one.
fn outcome_of_end(alloc: Global, at: u64, end: &HostEnd) -> Result<Option<Outcome>, OutOfMemory>
    ensures { IfOk result (λ outcome. outcome ≡ outcome_of_event at (problem_of_end end.now)) }
{
    match end {
        HostEnd::Success => Ok(None),
        HostEnd::NoMemory => Ok(None),
        HostEnd::Error(text) => {
            let problem = Problem::HostError(text.copy()?);
            Ok(Some(Outcome::Failed { at, problem }))
        }
        HostEnd::Ended => Ok(Some(Outcome::ChildEnded(Child::Host))),
        HostEnd::PipeFault => Ok(Some(Outcome::PipeFault(Child::Host))),
        HostEnd::BadFrame(bytes) => {
            let bytes = Bytes::from_slice(alloc, bytes.as_slice())?;
            Ok(Some(Outcome::BadFrame {
                child: Child::Host,
                bytes,
            }))
        }
    }
}

/// Takes up a registration, spelled by `body`. Answers whether the host may go on.
fn register<S: Store, Q: Pipe>(
    alloc: Global,
    journal: &mut Journal,
    store: &mut S,
    writing: &mut Writing<Q>,
    n: u64,
    told: Registration,
    body: Bytes,
) -> bool
    requires rest { AtRest (run_of journal.old) journal.old writing.old.failed }
    requires stack { IsScope journal.old.stack }
    requires project { IsScope journal.old.project }
    requires spelled { IsSpelled host_spelling (Request.Register n told) }
    ensures did { Registered result (Request.Register n told) body (run_of journal.old) journal.old journal.new writing.new.failed }
    ensures faults_never_fall { S.faults store.old ≤ S.faults store.new }
    ensures half_faults_never_fall { Q.faults writing.old.half ≤ Q.faults writing.new.half }
    ensures store_caused { StoreCaused journal.old.history journal.new.history (S.faults store.old) (S.faults store.new) }
    ensures answers_caused { AnswersCaused journal.old.history journal.new.history (Q.faults writing.old.half) (Q.faults writing.new.half) }
    ensures stored { KeepsStored (run_of journal.old) journal.old journal.new
        (S.faults store.old) (S.faults store.new) (S.story store.old) (S.story store.new) }
    ensures taken_stays { Q.taken writing.new.half ≡ Q.taken writing.old.half }
    ensures written { KeepsWritten (run_of journal.old) journal.old journal.new writing.old.failed writing.new.failed
        (Q.faults writing.old.half) (Q.faults writing.new.half) (Q.given writing.old.half) (Q.given writing.new.half) }
{
    if n <= journal.last {
        end_messages(alloc, journal, HostEnd::BadFrame(body));
        return false;
    }
    if journal.halted {
        return halt(alloc, journal, writing, n, told);
    }
    match place(alloc, journal, &told) {
        Ok(placed) => accept(alloc, journal, store, writing, n, told, placed),
        Err(Refusal::NotNext) => {
            end_messages(alloc, journal, HostEnd::BadFrame(body));
            false
        }
        Err(Refusal::NoMemory) => {
            end_messages(alloc, journal, HostEnd::NoMemory);
            false
        }
    }
}

/// The number and the registration of a request that is one.
fn registration_of(request: Request) -> Option<(u64, Registration)>
    ensures told { IfSome result (λ parts. Request.Register parts.0 parts.1 ≡ request) }
    ensures other { result ≡ None → is_registration request ≡ false }
{
    match request {
        Request::Register { n, told } => Some((n, told)),
        Request::Outputs { .. } => None,
        Request::Invoke { .. } => None,
    }
}

/// Takes up a request, spelled by `body`; other requests than registrations may not stand yet. Answers
/// whether the host may go on.
fn take_up<S: Store, Q: Pipe>(
    alloc: Global,
    journal: &mut Journal,
    store: &mut S,
    writing: &mut Writing<Q>,
    request: Request,
    body: Bytes,
) -> bool
    requires rest { AtRest (run_of journal.old) journal.old writing.old.failed }
    requires stack { IsScope journal.old.stack }
    requires project { IsScope journal.old.project }
    requires spelled { (n : ℕ) (told : Registration) → Request.Register n told ≡ request → IsSpelled host_spelling (Request.Register n told) }
    ensures did { Registered result request body (run_of journal.old) journal.old journal.new writing.new.failed }
    ensures faults_never_fall { S.faults store.old ≤ S.faults store.new }
    ensures half_faults_never_fall { Q.faults writing.old.half ≤ Q.faults writing.new.half }
    ensures store_caused { StoreCaused journal.old.history journal.new.history (S.faults store.old) (S.faults store.new) }
    ensures answers_caused { AnswersCaused journal.old.history journal.new.history (Q.faults writing.old.half) (Q.faults writing.new.half) }
    ensures stored { KeepsStored (run_of journal.old) journal.old journal.new
        (S.faults store.old) (S.faults store.new) (S.story store.old) (S.story store.new) }
    ensures taken_stays { Q.taken writing.new.half ≡ Q.taken writing.old.half }
    ensures written { KeepsWritten (run_of journal.old) journal.old journal.new writing.old.failed writing.new.failed
        (Q.faults writing.old.half) (Q.faults writing.new.half) (Q.given writing.old.half) (Q.given writing.new.half) }
{
    match registration_of(request) {
        Some((n, told)) => register(alloc, journal, store, writing, n, told, body),
        None => {
            end_messages(alloc, journal, HostEnd::BadFrame(body));
            false
        }
    }
}

/// Takes up the host's next message. Answers whether the host may go on.
fn step<S: Store, Q: Pipe>(
    alloc: Global,
    journal: &mut Journal,
    store: &mut S,
    reading: &mut Q,
    writing: &mut Writing<Q>,
) -> bool
    requires rest { AtRest (run_of journal.old) journal.old writing.old.failed }
    requires stack { IsScope journal.old.stack }
    requires project { IsScope journal.old.project }
    ensures stands { Stands result (run_of journal.old) journal.new writing.new.failed }
    ensures taken { KeepsTaken result (run_of journal.old) journal.old.history journal.new.history journal.new.wanted
        (Q.taken reading.old) (Q.taken reading.new) (Q.faults reading.new) (Q.ends reading.new) }
    ensures faults_never_fall { S.faults store.old ≤ S.faults store.new }
    ensures half_faults_never_fall { Q.faults writing.old.half ≤ Q.faults writing.new.half }
    ensures store_caused { StoreCaused journal.old.history journal.new.history (S.faults store.old) (S.faults store.new) }
    ensures answers_caused { AnswersCaused journal.old.history journal.new.history (Q.faults writing.old.half) (Q.faults writing.new.half) }
    ensures end_caused { result ≡ false → EndCaused (Q.faults reading.new) (Q.ends reading.new) journal.new.history }
    ensures stored { KeepsStored (run_of journal.old) journal.old journal.new
        (S.faults store.old) (S.faults store.new) (S.story store.old) (S.story store.new) }
    ensures given_stays { Q.given reading.new ≡ Q.given reading.old }
    ensures taken_stays { Q.taken writing.new.half ≡ Q.taken writing.old.half }
    ensures ends_fit { result ≡ false → EndsFit (run_of journal.old) host_spelling journal.new.history }
    ensures written { KeepsWritten (run_of journal.old) journal.old journal.new writing.old.failed writing.new.failed
        (Q.faults writing.old.half) (Q.faults writing.new.half) (Q.given writing.old.half) (Q.given writing.new.half) }
{
    match hear(alloc, reading) {
        Err(end) => {
            end_messages(alloc, journal, end);
            false
        }
        Ok(Heard { word, body }) => match word {
            HostWord::Success => {
                journal.end_host(HostEnd::Success, None);
                false
            }
            HostWord::Request(request) => take_up(alloc, journal, store, writing, request, body),
        },
    }
}

/// Serves the host until its messages end.
pub fn serve<R: Wait, S: Store, Q: Pipe>(
    rt: &R,
    alloc: Global,
    journal: &mut Journal,
    store: &mut S,
    reading: &mut Q,
    writing: &mut Writing<Q>,
)
    requires rest { AtRest (run_of journal.old) journal.old writing.old.failed }
    requires stack { IsScope journal.old.stack }
    requires project { IsScope journal.old.project }
    ensures over { Over (run_of journal.old) journal.new writing.new.failed }
    ensures taken { KeepsTaken false (run_of journal.old) journal.old.history journal.new.history journal.new.wanted
        (Q.taken reading.old) (Q.taken reading.new) (Q.faults reading.new) (Q.ends reading.new) }
    ensures faults_never_fall { S.faults store.old ≤ S.faults store.new }
    ensures half_faults_never_fall { Q.faults writing.old.half ≤ Q.faults writing.new.half }
    ensures store_caused { StoreCaused journal.old.history journal.new.history (S.faults store.old) (S.faults store.new) }
    ensures answers_caused { AnswersCaused journal.old.history journal.new.history (Q.faults writing.old.half) (Q.faults writing.new.half) }
    ensures end_caused { EndCaused (Q.faults reading.new) (Q.ends reading.new) journal.new.history }
    ensures stored { KeepsStored (run_of journal.old) journal.old journal.new
        (S.faults store.old) (S.faults store.new) (S.story store.old) (S.story store.new) }
    ensures given_stays { Q.given reading.new ≡ Q.given reading.old }
    ensures taken_stays { Q.taken writing.new.half ≡ Q.taken writing.old.half }
    ensures ends_fit { EndsFit (run_of journal.old) host_spelling journal.new.history }
    ensures written { KeepsWritten (run_of journal.old) journal.old journal.new writing.old.failed writing.new.failed
        (Q.faults writing.old.half) (Q.faults writing.new.half) (Q.given writing.old.half) (Q.given writing.new.half) }
{
    for _ in rt.forever() {
        if !step(alloc, journal, store, reading, writing) {
            return;
        }
    }
}
