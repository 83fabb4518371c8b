ghost use Rattle.std.specs.Prelude.{◌≡◌, ◌≤◌, None, IfErr, IfOk, OnErr, OnOk};
ghost use Rattle.pl_world.specs.Causes.{OnFailed};
ghost use Rattle.pl_world.specs.Counts.{Rose};
ghost use Rattle.pl_world.specs.Frames.{IsBody, frame_of};
ghost use Rattle.pl_world.specs.Told.{Gave, GavePart};
ghost use Rattle.pl_provider_msg.specs.Response.{reply_text};
ghost use Rattle.pl_toy_serve.specs.Served.{IfFaulted, IsAnswer, IsGivenUp, IsKeptOrReplied, given_text, too_long};

use crate::asking::Request;
use crate::ending::Ending;
use pl_events::Reply;
use pl_provider_msg::{MsgOut, reply_bytes};
use pl_toy::{Shelf, respond};
use pl_value::{Bytes, OutOfMemory, Text};
use pl_world::{Pipe, Trouble, write_frame};
use std::alloc::Global;

/// The body of the reply to a request, which is carried out over the shelf.
pub(crate) fn replied<H: Shelf>(
    alloc: Global,
    shelf: &mut H,
    request: Request,
) -> Result<Bytes, Ending>
    ensures answer { IfOk result (λ body. IsAnswer request.ticket request.asked body (H.things shelf.old) (H.things shelf.new) (Rose (H.faults shelf.old) (H.faults shelf.new))) }
    ensures body { IfOk result IsBody }
    ensures no_memory { IfErr result (λ ending. ending ≡ Ending.NoMemory) }
    ensures kept_or_replied { OnErr result (IsKeptOrReplied request.asked (H.things shelf.old) (H.things shelf.new) (Rose (H.faults shelf.old) (H.faults shelf.new))) }
    ensures faults_never_fall { H.faults shelf.old ≤ H.faults shelf.new }
{
    let body = reply_to(alloc, shelf, &request);
    drop(request);
    match body {
        Ok(body) => Ok(body),
        Err(_) => Err(Ending::NoMemory),
    }
}

/// The body of the reply to a request, which is carried out over the shelf: that of the error `too long` where it would be
/// longer than the body of a frame may be.
pub fn reply_to<H: Shelf>(
    alloc: Global,
    shelf: &mut H,
    request: &Request,
) -> Result<Bytes, OutOfMemory>
    ensures answer { IfOk result (λ body. IsAnswer request.now.ticket request.now.asked body (H.things shelf.old) (H.things shelf.new) (Rose (H.faults shelf.old) (H.faults shelf.new))) }
    ensures body { IfOk result IsBody }
    ensures kept_or_replied { OnErr result (IsKeptOrReplied request.now.asked (H.things shelf.old) (H.things shelf.new) (Rose (H.faults shelf.old) (H.faults shelf.new))) }
    ensures faults_never_fall { H.faults shelf.old ≤ H.faults shelf.new }
{
    let reply = respond(alloc, shelf, &request.asked)?;
    spelled(alloc, request.ticket, reply)
}

// The body of a reply.
fn spelled(alloc: Global, ticket: u64, reply: Reply) -> Result<Bytes, OutOfMemory>
    ensures text { IfOk result (λ body. body ≡ given_text ticket reply) }
    ensures body { IfOk result IsBody }
{
    let body = fitting(alloc, ticket, &reply);
    drop(reply);
    body
}

// The body of a reply, or of the error in its place where it would be too long.
fn fitting(alloc: Global, ticket: u64, reply: &Reply) -> Result<Bytes, OutOfMemory>
    ensures text { IfOk result (λ body. body ≡ given_text ticket reply.now) }
    ensures body { IfOk result IsBody }
{
    match reply_bytes(alloc, ticket, reply) {
        Ok(body) => Ok(body),
        Err(MsgOut::TooLong(_)) => refused(alloc, ticket),
        Err(MsgOut::OutOfMemory) => Err(OutOfMemory),
    }
}

// The body of the error `too long`.
fn refused(alloc: Global, ticket: u64) -> Result<Bytes, OutOfMemory>
    ensures text { IfOk result (λ body. body ≡ reply_text ticket too_long) }
    ensures body { IfOk result IsBody }
{
    let refusal = Reply::Error(Text::from_str(alloc, "too long")?);
    match reply_bytes(alloc, ticket, &refusal) {
        Ok(body) => Ok(body),
        Err(_) => Err(OutOfMemory),
    }
}

/// Gives the frame of a body.
pub(crate) fn given<Q: Pipe>(alloc: Global, pipe: &mut Q, body: &[u8]) -> Result<(), Ending>
    requires { IsBody body.now }
    ensures given { OnOk result (Gave (Q.given pipe.old) (Q.given pipe.new) (frame_of body.now) None) }
    ensures part_given { OnErr result (GavePart (Q.given pipe.old) (Q.given pipe.new) (frame_of body.now) None) }
    ensures given_up { IsGivenUp result }
    ensures fault_rose { IfFaulted result (Rose (Q.faults pipe.old) (Q.faults pipe.new)) }
    ensures taken_stays { Q.taken pipe.new ≡ Q.taken pipe.old }
    ensures faults_never_fall { Q.faults pipe.old ≤ Q.faults pipe.new }
    ensures ends_never_fall { Q.ends pipe.old ≤ Q.ends pipe.new }
{
    match give_uncovered(alloc, pipe, body) {
        Ok(()) => Ok(()),
        Err(Trouble::Failed) => Err(Ending::PipeFault),
        Err(Trouble::OutOfMemory) => Err(Ending::NoMemory),
    }
}

fn give_uncovered<'a, Q: Pipe>(
    alloc: Global,
    pipe: &'a mut Q,
    body: &'a [u8],
) -> Result<(), Trouble>
    requires { IsBody body.now }
    ensures given { OnOk result (Gave (Q.given pipe.old) (Q.given pipe.new) (frame_of body.now) None) }
    ensures part_given { OnErr result (GavePart (Q.given pipe.old) (Q.given pipe.new) (frame_of body.now) None) }
    ensures failed_rose { OnFailed result (Rose (Q.faults pipe.old) (Q.faults pipe.new)) }
    ensures taken_stays { Q.taken pipe.new ≡ Q.taken pipe.old }
    ensures faults_never_fall { Q.faults pipe.old ≤ Q.faults pipe.new }
    ensures ends_never_fall { Q.ends pipe.old ≤ Q.ends pipe.new }
{
    let cover: Option<&'a Q::Cover> = None;
    write_frame(alloc, pipe, cover, body)
}
