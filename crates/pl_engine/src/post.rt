ghost use Rattle.std.specs.Prelude.{◌≡◌, ◌<◌, ◌≤◌, [], false, None, true, IfErr, IfOk, length, OnErr, OnOk, option_map};
ghost use Rattle.pl_world.specs.Causes.{OnFailed};
ghost use Rattle.pl_world.specs.Counts.{Rose};
ghost use Rattle.pl_world.specs.Frames.{IsBody, frame_of};
ghost use Rattle.pl_world.specs.Told.{Gave, GavePart};
ghost use Rattle.pl_host_msg.specs.Answer.{answer_text};
ghost use Rattle.pl_members.specs.Message.{IfTooLong};
ghost use Rattle.pl_world.specs.declared.frames.TheConstants.{MAX_BODY};
ghost use Rattle.pl_components.specs.Due.{answer_of, is_post_due, result_of};
ghost use Rattle.pl_engine.specs.Spelled.{host_spelling};
ghost use Rattle.pl_engine.specs.Journal.{Consistent, run_of};
ghost use Rattle.pl_engine.specs.Caused.{AnswersCaused, SameAnswerFaults, SameStoreFaults};
ghost use Rattle.pl_engine.specs.Answered.{Answers, Gives, KeepsWritten, Stops, urn_of};

use crate::journal::Journal;
use pl_events::{Answer, Stop};
use pl_host_msg::{MsgOut, answer_bytes, halted_bytes};
use pl_urn::Urn;
use pl_value::{Bytes, Fields, OutOfMemory};
use pl_world::{Pipe, Trouble, write_frame};
use std::alloc::Global;

/// The half that answers go out by.
#[derive(Drop)]
pub struct Writing<Q: Pipe> {
    pub half: Q,
    /// Whether an answer could not be given; then no other is.
    pub failed: bool,
}

/// Answers request `n`: with the URN of its goal if that is recorded, and else that it was halted.
pub fn post<Q: Pipe>(
    alloc: Global,
    journal: &mut Journal,
    writing: &mut Writing<Q>,
    n: u64,
    urn: Option<Urn>,
)
    requires consistent { Consistent (run_of journal.old) journal.old }
    requires unfailed { writing.old.failed ≡ false }
    requires due { is_post_due (run_of journal.old) journal.old.history n ≡ true }
    requires result { option_map urn_of (result_of (run_of journal.old) journal.old.history n) ≡ urn }
    ensures consistent { Consistent (run_of journal.old) journal.new }
    ensures marks { journal.new.marks.items ≡ journal.old.marks.items }
    ensures answered { Answers n writing.new.failed journal.old.history journal.new.history }
    ensures failing { writing.new.failed ≡ true → journal.new.stopped ≡ true }
    ensures wanted { journal.old.wanted ≡ true → journal.new.wanted ≡ true }
    ensures faults_never_fall { Q.faults writing.old.half ≤ Q.faults writing.new.half }
    ensures answers_caused { AnswersCaused journal.old.history journal.new.history (Q.faults writing.old.half) (Q.faults writing.new.half) }
    ensures same_store { SameStoreFaults journal.old.history journal.new.history }
    ensures taken_stays { Q.taken writing.new.half ≡ Q.taken writing.old.half }
    ensures written { KeepsWritten (run_of journal.old) journal.old journal.new writing.old.failed writing.new.failed
        (Q.faults writing.old.half) (Q.faults writing.new.half) (Q.given writing.old.half) (Q.given writing.new.half) }
{
    match answer_body(alloc, journal, n, urn) {
        Ok(body) => give_answer(alloc, journal, writing, n, body),
        Err(_) => {
            writing.failed = true;
            journal.stop(Stop::NoMemory);
        }
    }
}

/// Gives the answer's body and writes down that it was given.
fn give_answer<Q: Pipe>(
    alloc: Global,
    journal: &mut Journal,
    writing: &mut Writing<Q>,
    n: u64,
    body: Bytes,
)
    requires consistent { Consistent (run_of journal.old) journal.old }
    requires unfailed { writing.old.failed ≡ false }
    requires due { is_post_due (run_of journal.old) journal.old.history n ≡ true }
    requires body { IsBody body }
    requires answer { body ≡ answer_text n (answer_of (run_of journal.old) host_spelling journal.old.history n) }
    ensures consistent { Consistent (run_of journal.old) journal.new }
    ensures marks { journal.new.marks.items ≡ journal.old.marks.items }
    ensures given { Gives n writing.new.failed journal.old.history journal.new.history }
    ensures failing { writing.new.failed ≡ true → journal.new.stopped ≡ true }
    ensures wanted { journal.old.wanted ≡ true → journal.new.wanted ≡ true }
    ensures faults_never_fall { Q.faults writing.old.half ≤ Q.faults writing.new.half }
    ensures answers_caused { AnswersCaused journal.old.history journal.new.history (Q.faults writing.old.half) (Q.faults writing.new.half) }
    ensures same_store { SameStoreFaults journal.old.history journal.new.history }
    ensures taken_stays { Q.taken writing.new.half ≡ Q.taken writing.old.half }
    ensures written { KeepsWritten (run_of journal.old) journal.old journal.new writing.old.failed writing.new.failed
        (Q.faults writing.old.half) (Q.faults writing.new.half) (Q.given writing.old.half) (Q.given writing.new.half) }
{
    match give_uncovered(alloc, &mut writing.half, body.as_slice()) {
        Ok(()) => match journal.posted(n) {
            Ok(()) => {}
            Err(_) => {
                writing.failed = true;
                journal.stop(Stop::NoMemory);
            }
        },
        Err(Trouble::Failed) => {
            writing.failed = true;
            journal.stop(Stop::HostPipeFault);
        }
        Err(Trouble::OutOfMemory) => {
            writing.failed = true;
            journal.stop(Stop::NoMemory);
        }
    }
}

/// Gives the frame of a body, without a cover.
fn give_uncovered<'a, Q: Pipe>(
    alloc: Global,
    half: &'a mut Q,
    body: &'a [u8],
) -> Result<(), Trouble>
    requires { IsBody body.now }
    ensures given { OnOk result (Gave (Q.given half.old) (Q.given half.new) (frame_of body.now) None) }
    ensures part_given { OnErr result (GavePart (Q.given half.old) (Q.given half.new) (frame_of body.now) None) }
    ensures failed_rose { OnFailed result (Rose (Q.faults half.old) (Q.faults half.new)) }
    ensures taken_stays { Q.taken half.new ≡ Q.taken half.old }
    ensures faults_never_fall { Q.faults half.old ≤ Q.faults half.new }
{
    let cover: Option<&'a Q::Cover> = None;
    write_frame(alloc, half, cover, body)
}

/// The body of the answer; where a result would be too long the run stops, unless a problem stands already, and the
/// answer is the halted one.
fn answer_body(
    alloc: Global,
    journal: &mut Journal,
    n: u64,
    urn: Option<Urn>,
) -> Result<Bytes, OutOfMemory>
    requires consistent { Consistent (run_of journal.old) journal.old }
    requires due { is_post_due (run_of journal.old) journal.old.history n ≡ true }
    requires result { option_map urn_of (result_of (run_of journal.old) journal.old.history n) ≡ urn }
    ensures consistent { Consistent (run_of journal.old) journal.new }
    ensures marks { journal.new.marks.items ≡ journal.old.marks.items }
    ensures stops { Stops journal.old.history journal.new.history }
    ensures same_answers { SameAnswerFaults journal.old.history journal.new.history }
    ensures same_store { SameStoreFaults journal.old.history journal.new.history }
    ensures wanted { journal.new.wanted ≡ journal.old.wanted }
    ensures body { IfOk result IsBody }
    ensures answer { IfOk result (λ body. body ≡ answer_text n (answer_of (run_of journal.old) host_spelling journal.new.history n)) }
{
    let Some(urn) = urn else {
        return halted_bytes(alloc, n);
    };
    match registered_bytes(alloc, n, urn) {
        Ok(body) => Ok(body),
        Err(MsgOut::OutOfMemory) => Err(OutOfMemory),
        Err(MsgOut::TooLong(_)) => {
            if journal.halted {
                return halted_bytes(alloc, n);
            }
            journal.stop(Stop::MessageTooLong);
            halted_bytes(alloc, n)
        }
    }
}

/// The bytes of the answer that a component of this URN is registered.
fn registered_bytes(alloc: Global, n: u64, urn: Urn) -> Result<Bytes, MsgOut>
    ensures bytes { IfOk result (λ bytes. bytes ≡ answer_text n (Answer.Registered urn None [])) }
    ensures fits { IfOk result (λ bytes. length bytes ≤ MAX_BODY) }
    ensures too_long { IfErr result (λ error. IfTooLong error
        (λ len. len ≡ length (answer_text n (Answer.Registered urn None [])))) }
    ensures over { IfErr result (λ error. IfTooLong error (λ len. MAX_BODY < len)) }
{
    let answer = Answer::Registered {
        urn,
        id: None,
        outputs: Fields::new(alloc),
    };
    answer_bytes(alloc, n, &answer)
}
