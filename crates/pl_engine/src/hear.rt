ghost use Rattle.pl_model.specs.Frames.{IsBadLength};
ghost use Rattle.std.specs.Prelude.{◌≡◌, ◌≤◌, ◌<◌, ◌^◌, ◌⊎◌, Some, None, IfErr, IfOk, OnOk};
ghost use Rattle.pl_world.specs.Counts.{Rose};
ghost use Rattle.pl_world.specs.Frames.{IsBody, frame_of, length_bytes};
ghost use Rattle.pl_world.specs.Told.{Grew};
ghost use Rattle.pl_host_msg.specs.Word.{word_of};
ghost use Rattle.pl_engine.specs.Heard.{EndHeard, IfEnded, IfFaulted, IsHeard, IsLengthEnd, IsUnread};

use pl_events::HostEnd;
use pl_host_msg::{HostWord, MsgIn, request_of};
use pl_value::Bytes;
use pl_world::{FrameIn, Pipe, read_frame};
use std::alloc::Global;

/// A message of the host, and the body that spelled it.
#[derive(Debug, Drop)]
pub struct Heard {
    pub word: HostWord,
    pub body: Bytes,
}

/// Reads the host's next message, or learns how its messages end.
pub fn hear<Q: Pipe>(alloc: Global, reading: &mut Q) -> Result<Heard, HostEnd>
    ensures heard { IfOk result (IsHeard (Grew (Q.taken reading.old) (Q.taken reading.new))) }
    ensures ended { IfErr result (λ end. EndHeard end (Grew (Q.taken reading.old) (Q.taken reading.new))) }
    ensures faulted { IfErr result (λ end. IfFaulted end (Rose (Q.faults reading.old) (Q.faults reading.new))) }
    ensures at_end { IfErr result (λ end. IfEnded end (Rose (Q.ends reading.old) (Q.ends reading.new))) }
    ensures given_stays { Q.given reading.new ≡ Q.given reading.old }
    ensures faults_never_fall { Q.faults reading.old ≤ Q.faults reading.new }
    ensures ends_never_fall { Q.ends reading.old ≤ Q.ends reading.new }
{
    match read_frame(alloc, reading) {
        Ok(body) => understand(alloc, body),
        Err(FrameIn::Fault) => Err(HostEnd::PipeFault),
        Err(FrameIn::End) => Err(HostEnd::Ended),
        Err(FrameIn::CutShort(_)) => Err(HostEnd::Ended),
        Err(FrameIn::TooLong(n)) => Err(bad_length(alloc, n)),
        Err(FrameIn::Empty) => Err(bad_length(alloc, 0)),
        Err(FrameIn::OutOfMemory) => Err(HostEnd::NoMemory),
    }
}

/// The message that a body spells.
fn understand(alloc: Global, body: Bytes) -> Result<Heard, HostEnd>
    ensures body { IfOk result (λ heard. heard.body ≡ body) }
    ensures word { IfOk result (λ heard. word_of body ≡ Some heard.word) }
    ensures unread { IfErr result (IsUnread body) }
{
    match request_of(alloc, body.as_slice()) {
        Ok(word) => Ok(Heard { word, body }),
        Err(MsgIn::NotAMessage) => Err(HostEnd::BadFrame(body)),
        Err(MsgIn::OutOfMemory) => Err(HostEnd::NoMemory),
    }
}

/// The end that a length makes which no body has.
fn bad_length(alloc: Global, n: u64) -> HostEnd
    requires { n < 2 ^ 32 }
    ensures { IsLengthEnd n result }
{
    let bytes = (n as u32).to_be_bytes();
    match Bytes::from_slice(alloc, &bytes) {
        Ok(bytes) => HostEnd::BadFrame(bytes),
        Err(_) => HostEnd::NoMemory,
    }
}
