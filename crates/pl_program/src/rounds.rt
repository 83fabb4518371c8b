ghost use Rattle.std.specs.Prelude.{◌≡◌, ◌≤◌, ◌⊎◌, ℕ, List, [], None, OnErr, OnOk};
ghost use Rattle.pl_world.specs.Causes.{OnFailed};
ghost use Rattle.pl_world.specs.Counts.{Rose};
ghost use Rattle.pl_world.specs.Frames.{IsBody, frame_of};
ghost use Rattle.pl_world.specs.Told.{Gave, GavePart, Grew};
ghost use Rattle.pl_program.specs.Begun.{begun};
ghost use Rattle.pl_program.specs.Due.{HasBody, turn_of};
ghost use Rattle.pl_program.specs.Told as spec;
ghost use Rattle.pl_program.specs.Told.{Ends, Gives, Goes, IsTalk, OverPipes};

use crate::start::begun;
use crate::talk::{Talk, Turn};
use pl_world::{FrameIn, Pipe, Trouble, read_frame, write_frame};
use std::alloc::Global;

/// The status of a host that gave its word of success.
const DONE: u8 = 0;

/// The status of one that gave its word of error.
const FAILED: u8 = 1;

/// The status where a pipe failed.
const PIPE_FAULT: u8 = 5;

/// The status where an awaited answer did not come.
const NO_ANSWER: u8 = 6;

/// The status where no memory was found.
const OUT_OF_MEMORY: u8 = 7;

/// Runs the program file whose bytes are given, as the host of the stack and the project. Answers come by `incoming`, and
/// what is said goes out by `outgoing`. The status is 0 after the word of success, 1 after the word of error, 5 where a
/// pipe failed, 6 where an awaited answer did not come, and 7 where no memory was found.
pub fn host<Q: Pipe>(
    alloc: Global,
    program: &[u8],
    stack: &str,
    project: &str,
    preview: bool,
    incoming: &mut Q,
    outgoing: &mut Q,
) -> u8
    ensures told { OverPipes (Q.given outgoing.old) (Q.given outgoing.new) (Q.taken incoming.old) (Q.taken incoming.new)
        (λ given taken. IsTalk (begun program.now stack.now project.now preview) given taken result
        (Rose (Q.faults incoming.old) (Q.faults incoming.new) ⊎ Rose (Q.faults outgoing.old) (Q.faults outgoing.new))
        (Rose (Q.ends incoming.old) (Q.ends incoming.new))) }
    ensures given_stays { Q.given incoming.new ≡ Q.given incoming.old }
    ensures taken_stays { Q.taken outgoing.new ≡ Q.taken outgoing.old }
    ensures incoming_faults { Q.faults incoming.old ≤ Q.faults incoming.new }
    ensures incoming_ends { Q.ends incoming.old ≤ Q.ends incoming.new }
    ensures outgoing_faults { Q.faults outgoing.old ≤ Q.faults outgoing.new }
    ensures outgoing_ends { Q.ends outgoing.old ≤ Q.ends outgoing.new }
{
    match begun(alloc, program, stack, project, preview) {
        Ok(mut talk) => converse(alloc, &mut talk, incoming, outgoing),
        Err(_) => OUT_OF_MEMORY,
    }
}

/// Goes on with the talk until its end.
fn converse<Q: Pipe>(alloc: Global, talk: &mut Talk, incoming: &mut Q, outgoing: &mut Q) -> u8
    ensures told { OverPipes (Q.given outgoing.old) (Q.given outgoing.new) (Q.taken incoming.old) (Q.taken incoming.new)
        (λ given taken. IsTalk talk.old given taken result
        (Rose (Q.faults incoming.old) (Q.faults incoming.new) ⊎ Rose (Q.faults outgoing.old) (Q.faults outgoing.new))
        (Rose (Q.ends incoming.old) (Q.ends incoming.new))) }
    ensures given_stays { Q.given incoming.new ≡ Q.given incoming.old }
    ensures taken_stays { Q.taken outgoing.new ≡ Q.taken outgoing.old }
    ensures incoming_faults { Q.faults incoming.old ≤ Q.faults incoming.new }
    ensures incoming_ends { Q.ends incoming.old ≤ Q.ends incoming.new }
    ensures outgoing_faults { Q.faults outgoing.old ≤ Q.faults outgoing.new }
    ensures outgoing_ends { Q.ends outgoing.old ≤ Q.ends outgoing.new }
{
    'rounds: loop {
        match round(alloc, talk, incoming, outgoing) {
            None => {}
            Some(status) => return status,
        }
    }
}

/// Gives a message or takes one. Answers the status where that was the last.
fn round<Q: Pipe>(alloc: Global, talk: &mut Talk, incoming: &mut Q, outgoing: &mut Q) -> Option<u8>
    ensures goes { OverPipes (Q.given outgoing.old) (Q.given outgoing.new) (Q.taken incoming.old) (Q.taken incoming.new)
        (Goes talk.old talk.new result
        (Rose (Q.faults incoming.old) (Q.faults incoming.new) ⊎ Rose (Q.faults outgoing.old) (Q.faults outgoing.new))
        (Rose (Q.ends incoming.old) (Q.ends incoming.new))) }
    ensures given_stays { Q.given incoming.new ≡ Q.given incoming.old }
    ensures taken_stays { Q.taken outgoing.new ≡ Q.taken outgoing.old }
    ensures incoming_faults { Q.faults incoming.old ≤ Q.faults incoming.new }
    ensures incoming_ends { Q.ends incoming.old ≤ Q.ends incoming.new }
    ensures outgoing_faults { Q.faults outgoing.old ≤ Q.faults outgoing.new }
    ensures outgoing_ends { Q.ends outgoing.old ≤ Q.ends outgoing.new }
{
    match talk.turn(alloc) {
        Ok(turn) => take_turn(alloc, talk, incoming, outgoing, turn),
        Err(_) => Some(OUT_OF_MEMORY),
    }
}

/// Does what is done next.
fn take_turn<Q: Pipe>(
    alloc: Global,
    talk: &mut Talk,
    incoming: &mut Q,
    outgoing: &mut Q,
    turn: Turn,
) -> Option<u8>
    requires turn { turn_of talk.old ≡ turn }
    requires body { HasBody turn }
    ensures goes { OverPipes (Q.given outgoing.old) (Q.given outgoing.new) (Q.taken incoming.old) (Q.taken incoming.new)
        (Goes talk.old talk.new result
        (Rose (Q.faults incoming.old) (Q.faults incoming.new) ⊎ Rose (Q.faults outgoing.old) (Q.faults outgoing.new))
        (Rose (Q.ends incoming.old) (Q.ends incoming.new))) }
    ensures given_stays { Q.given incoming.new ≡ Q.given incoming.old }
    ensures taken_stays { Q.taken outgoing.new ≡ Q.taken outgoing.old }
    ensures incoming_faults { Q.faults incoming.old ≤ Q.faults incoming.new }
    ensures incoming_ends { Q.ends incoming.old ≤ Q.ends incoming.new }
    ensures outgoing_faults { Q.faults outgoing.old ≤ Q.faults outgoing.new }
    ensures outgoing_ends { Q.ends outgoing.old ≤ Q.ends outgoing.new }
{
    match turn {
        Turn::Await => take_answer(alloc, talk, incoming),
        Turn::Ask(body) => give_request(alloc, talk, outgoing, body.as_slice()),
        Turn::Done(body) => Some(give_last(alloc, talk, outgoing, body.as_slice(), DONE)),
        Turn::Failed(body) => Some(give_last(alloc, talk, outgoing, body.as_slice(), FAILED)),
    }
}

/// Gives a request and counts it. Answers the status where it could not be given.
fn give_request<Q: Pipe>(
    alloc: Global,
    talk: &mut Talk,
    outgoing: &mut Q,
    body: &[u8],
) -> Option<u8>
    requires turn { turn_of talk.old ≡ Turn.Ask body.now }
    requires body { IsBody body.now }
    ensures goes { (given : List ℕ) × Gave (Q.given outgoing.old) (Q.given outgoing.new) given None
        × Goes talk.old talk.new result (Rose (Q.faults outgoing.old) (Q.faults outgoing.new)) ⊥ given [] }
    ensures taken_stays { Q.taken outgoing.new ≡ Q.taken outgoing.old }
    ensures faults_never_fall { Q.faults outgoing.old ≤ Q.faults outgoing.new }
    ensures ends_never_fall { Q.ends outgoing.old ≤ Q.ends outgoing.new }
{
    match talk.count() {
        Ok(()) => match give_uncovered(alloc, outgoing, body) {
            Ok(()) => None,
            Err(why) => Some(trouble_status(why)),
        },
        Err(_) => Some(OUT_OF_MEMORY),
    }
}

/// The status after a frame that was not given whole.
fn trouble_status(why: Trouble) -> u8
    ensures { result ≡ spec.trouble_status why }
{
    match why {
        Trouble::Failed => PIPE_FAULT,
        Trouble::OutOfMemory => OUT_OF_MEMORY,
    }
}

/// Gives the last word. Answers this status, or that of what prevented it.
fn give_last<Q: Pipe>(alloc: Global, talk: &Talk, outgoing: &mut Q, body: &[u8], status: u8) -> u8
    requires gives { Gives (turn_of talk.now) body.now }
    requires body { IsBody body.now }
    requires ends { Ends talk.now ⊥ ⊥ (frame_of body.now) [] status }
    ensures ends { (given : List ℕ) × Gave (Q.given outgoing.old) (Q.given outgoing.new) given None
        × Ends talk.now (Rose (Q.faults outgoing.old) (Q.faults outgoing.new)) ⊥ given [] result }
    ensures taken_stays { Q.taken outgoing.new ≡ Q.taken outgoing.old }
    ensures faults_never_fall { Q.faults outgoing.old ≤ Q.faults outgoing.new }
    ensures ends_never_fall { Q.ends outgoing.old ≤ Q.ends outgoing.new }
{
    match give_uncovered(alloc, outgoing, body) {
        Ok(()) => status,
        Err(why) => trouble_status(why),
    }
}

/// Gives the frame of a body, without a cover.
fn give_uncovered<'a, Q: Pipe>(
    alloc: Global,
    half: &'a mut Q,
    body: &'a [u8],
) -> Result<(), Trouble>
    requires { IsBody body.now }
    ensures given { OnOk result (Gave (Q.given half.old) (Q.given half.new) (frame_of body.now) None) }
    ensures part_given { OnErr result (GavePart (Q.given half.old) (Q.given half.new) (frame_of body.now) None) }
    ensures failed_rose { OnFailed result (Rose (Q.faults half.old) (Q.faults half.new)) }
    ensures taken_stays { Q.taken half.new ≡ Q.taken half.old }
    ensures faults_never_fall { Q.faults half.old ≤ Q.faults half.new }
    ensures ends_never_fall { Q.ends half.old ≤ Q.ends half.new }
{
    let cover: Option<&'a Q::Cover> = None;
    write_frame(alloc, half, cover, body)
}

/// Takes an answer. Answers the status where none came that may stand there.
fn take_answer<Q: Pipe>(alloc: Global, talk: &mut Talk, incoming: &mut Q) -> Option<u8>
    requires { turn_of talk.old ≡ Turn.Await }
    ensures goes { (taken : List ℕ) × Grew (Q.taken incoming.old) (Q.taken incoming.new) taken
        × Goes talk.old talk.new result (Rose (Q.faults incoming.old) (Q.faults incoming.new))
        (Rose (Q.ends incoming.old) (Q.ends incoming.new)) [] taken }
    ensures given_stays { Q.given incoming.new ≡ Q.given incoming.old }
    ensures faults_never_fall { Q.faults incoming.old ≤ Q.faults incoming.new }
    ensures ends_never_fall { Q.ends incoming.old ≤ Q.ends incoming.new }
{
    match read_frame(alloc, incoming) {
        Ok(body) => hear_body(alloc, talk, body.as_slice()),
        Err(why) => Some(frame_status(why)),
    }
}

/// The status where no frame came.
fn frame_status(why: FrameIn) -> u8
    ensures { result ≡ spec.frame_status why }
{
    match why {
        FrameIn::Fault => PIPE_FAULT,
        FrameIn::End => NO_ANSWER,
        FrameIn::CutShort(_) => NO_ANSWER,
        FrameIn::TooLong(_) => NO_ANSWER,
        FrameIn::Empty => NO_ANSWER,
        FrameIn::OutOfMemory => OUT_OF_MEMORY,
    }
}

/// Hears the answer that a body spells. Answers the status where it is none that may stand there.
fn hear_body(alloc: Global, talk: &mut Talk, body: &[u8]) -> Option<u8>
    requires turn { turn_of talk.old ≡ Turn.Await }
    requires body { IsBody body.now }
    ensures { Goes talk.old talk.new result ⊥ ⊥ [] (frame_of body.now) }
{
    match talk.hear(alloc, body) {
        Ok(stands) => heard_status(stands),
        Err(_) => Some(OUT_OF_MEMORY),
    }
}

/// The status after an answer that may not stand there.
fn heard_status(stands: bool) -> Option<u8>
    ensures { result ≡ spec.heard_status stands }
{
    if stands { None } else { Some(NO_ANSWER) }
}
