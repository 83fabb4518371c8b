ghost use Rattle.std.specs.Prelude.{◌≡◌, ◌≤◌, [], IfSome};
ghost use Rattle.pl_world.specs.Counts.{Rose};
ghost use Rattle.pl_world.specs.Told.{Grew};
ghost use Rattle.pl_toy_serve.specs.Served.{IfFaulted, IfInputEnded, IsUnderstood, TakenFor};

use crate::ending::Ending;
use pl_events::Ask;
use pl_provider_msg::{MsgIn, ask_of};
use pl_world::{FrameIn, Pipe, read_frame};
use std::alloc::Global;

/// What is asked, and under which ticket.
#[derive(Drop)]
pub struct Request {
    pub ticket: u64,
    pub asked: Ask,
}

/// Takes one frame, and answers what it asks.
pub(crate) fn asked<Q: Pipe>(alloc: Global, pipe: &mut Q) -> Result<Request, Ending>
    ensures taken { TakenFor result (Grew (Q.taken pipe.old) (Q.taken pipe.new)) }
    ensures fault_rose { IfFaulted result (Rose (Q.faults pipe.old) (Q.faults pipe.new)) }
    ensures end_rose { IfInputEnded result (Rose (Q.ends pipe.old) (Q.ends pipe.new)) }
    ensures end_left_nothing { IfInputEnded result (IfSome (Q.left pipe.new) (λ rest. rest ≡ [])) }
    ensures given_stays { Q.given pipe.new ≡ Q.given pipe.old }
    ensures faults_never_fall { Q.faults pipe.old ≤ Q.faults pipe.new }
    ensures ends_never_fall { Q.ends pipe.old ≤ Q.ends pipe.new }
{
    match read_frame(alloc, pipe) {
        Ok(body) => understood(alloc, body.as_slice()),
        Err(FrameIn::Fault) => Err(Ending::PipeFault),
        Err(FrameIn::End) => Err(Ending::InputEnd),
        Err(FrameIn::CutShort(_)) => Err(Ending::CutShort),
        Err(FrameIn::TooLong(_)) => Err(Ending::NoRequest),
        Err(FrameIn::Empty) => Err(Ending::NoRequest),
        Err(FrameIn::OutOfMemory) => Err(Ending::NoMemory),
    }
}

// What a body asks.
fn understood(alloc: Global, body: &[u8]) -> Result<Request, Ending>
    ensures { IsUnderstood result body.now }
{
    match ask_of(alloc, body) {
        Ok((ticket, asked)) => Ok(Request { ticket, asked }),
        Err(MsgIn::NotAMessage) => Err(Ending::NoRequest),
        Err(MsgIn::OutOfMemory) => Err(Ending::NoMemory),
    }
}
