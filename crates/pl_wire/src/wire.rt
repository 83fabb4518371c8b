ghost use Rattle.std.specs.Prelude.{◌≡◌, ◌<◌, ◌≤◌, ◌^◌};
ghost use Rattle.pl_world.specs.Counts.{Rose};
ghost use Rattle.pl_world.specs.Frames.{IsBody, frame_of};
ghost use Rattle.pl_world.specs.Told.{Gave, GavePart, Grew, cover_text};
ghost use Rattle.pl_wire.specs.Exchange.{FitsCall, GivenFor, IfEnded, IfFaulted, IsLengthLoss, IsReplyIn, TakenFor};

use pl_events::{Call, Exchanged, Loss};
use pl_provider_msg::{MsgIn, reply_of};
use pl_value::Bytes;
use pl_world::{FrameIn, Pipe, Trouble, read_frame, write_frame};
use std::alloc::Global;

/// Gives the body as one frame, each piece with the cover, and takes the frame of the reply to the call under the
/// ticket.
pub fn exchange<Q: Pipe>(
    alloc: Global,
    pipe: &mut Q,
    cover: Option<&Q::Cover>,
    ticket: u64,
    call: Call,
    body: &[u8],
) -> Exchanged
    requires { IsBody body.now }
    ensures given { let text = cover_text Q.Cover.text cover.entry in
        GivenFor result (Gave (Q.given pipe.old) (Q.given pipe.new) (frame_of body.now) text)
        (GavePart (Q.given pipe.old) (Q.given pipe.new) (frame_of body.now) text) }
    ensures taken { TakenFor ticket call result (Grew (Q.taken pipe.old) (Q.taken pipe.new)) }
    ensures fits { FitsCall call result }
    ensures faulted { IfFaulted result (Rose (Q.faults pipe.old) (Q.faults pipe.new)) }
    ensures at_end { IfEnded result (Rose (Q.ends pipe.old) (Q.ends pipe.new)) }
    ensures faults_never_fall { Q.faults pipe.old ≤ Q.faults pipe.new }
    ensures ends_never_fall { Q.ends pipe.old ≤ Q.ends pipe.new }
{
    match write_frame(alloc, pipe, cover, body) {
        Ok(()) => take_reply(alloc, pipe, ticket, call),
        Err(Trouble::Failed) => Exchanged::Lost(Loss::PipeFault),
        Err(Trouble::OutOfMemory) => Exchanged::Lost(Loss::NoMemory),
    }
}

/// Takes the frame of the reply.
fn take_reply<Q: Pipe>(alloc: Global, pipe: &mut Q, ticket: u64, call: Call) -> Exchanged
    ensures taken { TakenFor ticket call result (Grew (Q.taken pipe.old) (Q.taken pipe.new)) }
    ensures fits { FitsCall call result }
    ensures faulted { IfFaulted result (Rose (Q.faults pipe.old) (Q.faults pipe.new)) }
    ensures at_end { IfEnded result (Rose (Q.ends pipe.old) (Q.ends pipe.new)) }
    ensures given_stays { Q.given pipe.new ≡ Q.given pipe.old }
    ensures faults_never_fall { Q.faults pipe.old ≤ Q.faults pipe.new }
    ensures ends_never_fall { Q.ends pipe.old ≤ Q.ends pipe.new }
{
    match read_frame(alloc, pipe) {
        Ok(body) => understand(alloc, ticket, call, body),
        Err(FrameIn::Fault) => Exchanged::Lost(Loss::PipeFault),
        Err(FrameIn::End) => Exchanged::Lost(Loss::Ended),
        Err(FrameIn::CutShort(_)) => Exchanged::Lost(Loss::Ended),
        Err(FrameIn::TooLong(n)) => bad_length(alloc, n),
        Err(FrameIn::Empty) => bad_length(alloc, 0),
        Err(FrameIn::OutOfMemory) => Exchanged::Lost(Loss::NoMemory),
    }
}

/// The reply that a body spells.
fn understand(alloc: Global, ticket: u64, call: Call, body: Bytes) -> Exchanged
    ensures read { IsReplyIn ticket call result body }
    ensures fits { FitsCall call result }
{
    match reply_of(alloc, ticket, call, body.as_slice()) {
        Ok(reply) => Exchanged::Reply(reply),
        Err(MsgIn::NotAMessage) => Exchanged::Lost(Loss::BadFrame(body)),
        Err(MsgIn::OutOfMemory) => Exchanged::Lost(Loss::NoMemory),
    }
}

/// The loss that a length makes which no body has.
fn bad_length(alloc: Global, n: u64) -> Exchanged
    requires { n < 2 ^ 32 }
    ensures { IsLengthLoss n result }
{
    let bytes = (n as u32).to_be_bytes();
    match Bytes::from_slice(alloc, &bytes) {
        Ok(bytes) => Exchanged::Lost(Loss::BadFrame(bytes)),
        Err(_) => Exchanged::Lost(Loss::NoMemory),
    }
}
