ghost use Rattle.std.specs.Prelude.{◌≤◌, IfErr, IfOk};
ghost use Rattle.pl_world.specs.Counts.{Rose};
ghost use Rattle.pl_world.specs.Frames.{IsBody};
ghost use Rattle.pl_toy_pipe.specs.Piped.{IsBodyAnswered, IsUndone, IsUnderstood};

use crate::ending::Ending;
use pl_provider_msg::{MsgIn, ask_of};
use pl_toy::Shelf;
use pl_toy_serve::{Request, reply_to};
use pl_value::Bytes;
use std::alloc::Global;

/// The body of the reply to a body, which is carried out over the shelf.
pub(crate) fn answered<H: Shelf>(alloc: Global, shelf: &mut H, body: &[u8]) -> Result<Bytes, Ending>
    ensures answered { IfOk result (λ answer. IsBodyAnswered body.now answer (H.things shelf.old) (H.things shelf.new) (Rose (H.faults shelf.old) (H.faults shelf.new))) }
    ensures body { IfOk result IsBody }
    ensures undone { IfErr result (λ ending. IsUndone ending body.now (H.things shelf.old) (H.things shelf.new) (Rose (H.faults shelf.old) (H.faults shelf.new))) }
    ensures faults_never_fall { H.faults shelf.old ≤ H.faults shelf.new }
{
    let request = understood(alloc, body)?;
    let answer = reply_to(alloc, shelf, &request);
    drop(request);
    match answer {
        Ok(answer) => Ok(answer),
        Err(_) => Err(Ending::NoMemory),
    }
}

// What a body asks.
fn understood(alloc: Global, body: &[u8]) -> Result<Request, Ending>
    ensures { IsUnderstood result body.now }
{
    match ask_of(alloc, body) {
        Ok((ticket, asked)) => Ok(Request { ticket, asked }),
        Err(MsgIn::NotAMessage) => Err(Ending::NoRequest),
        Err(MsgIn::OutOfMemory) => Err(Ending::NoMemory),
    }
}
