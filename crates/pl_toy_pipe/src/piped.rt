ghost use Rattle.std.specs.Prelude.{◌≡◌, ◌<◌, ◌≤◌, [], ◌++◌, true, false, is_err, length, take, vec_len, None, Some, Err, IfOk};
ghost use Rattle.pl_world.specs.Causes.{OnFailed, OnNoMemory};
ghost use Rattle.pl_world.specs.Counts.{Rose};
ghost use Rattle.pl_world.specs.Told.{IsFresh};
ghost use Rattle.pl_toy_pipe.specs.Piped.{Fits, HasGivenUpWithin, IsBegun, IsHeard, IsStep, state};

use crate::answering::answered;
use crate::ending::Ending;
use crate::framing::{HEADER, Reach, add_frame, missing, reach_of};
use pl_toy::Shelf;
use pl_world::{Covering, Failed, Pipe, Trouble};
use std::alloc::Global;
use std::marker::PhantomData;

/// A pipe to a toy that stands in memory: each whole request that it is given is answered over the shelf at once, and the
/// frames of the replies are what can be taken.
///
/// After bytes that are no request the toy has ended, and each further piece fails. So it is where no memory was found.
/// Where all replies were taken the input ends, until a further request is given.
#[derive(Drop)]
pub struct ToyPipe<H: Shelf, C> {
    shelf: H,
    /// The bytes that came since the last answer.
    begun: Vec<u8>,
    /// The frames of all replies, and how many of their bytes were taken.
    replies: Vec<u8>,
    at: usize,
    is_over: bool,
    faults: u64,
    ends: u64,
    cover: PhantomData<C>,
    ghost within: { at ≤ vec_len replies },
    ghost awaits: { is_over ≡ false → IsBegun begun.items },
}

/// A pipe to a toy over this shelf; it takes no memory.
pub fn toy_pipe<H: Shelf, C: Covering>(alloc: Global, shelf: H) -> ToyPipe<H, C>
    ensures fresh { IsFresh None (Some (take result.at result.replies.items)) result.faults result.ends }
    ensures shelf { result.shelf ≡ shelf }
    ensures nothing_begun { result.begun.items ≡ [] }
    ensures no_replies { result.replies.items ≡ [] }
    ensures goes_on { result.is_over ≡ false }
{
    ToyPipe {
        shelf,
        begun: Vec::new(alloc),
        replies: Vec::new(alloc),
        at: 0,
        is_over: false,
        faults: 0,
        ends: 0,
        cover: PhantomData,
    }
}

impl<H: Shelf, C> ToyPipe<H, C> {
    /// The shelf of the toy.
    pub fn into_shelf(self) -> H
        ensures { result ≡ self.shelf }
    {
        self.shelf
    }

    /// Hears the first bytes of a piece, but none behind the end of a frame, and says how many: what `give` of the pipe
    /// does.
    pub fn hear(&mut self, alloc: Global, bytes: &[u8]) -> Result<u64, Trouble>
        ensures within { IfOk result (λ count. count ≤ length bytes.now) }
        ensures some_went { IfOk result (λ count. 0 < length bytes.now → 0 < count) }

        // With what came since the last answer they are a part of a frame, a request that was answered, or no request.
        ensures heard { IfOk result (λ count. 0 < count → IsHeard (self.old.begun.items ++ take count bytes.now)
            (state self.old.begun.items self.old.replies.items self.old.is_over (H.things self.old.shelf) (H.faults self.old.shelf))
            (state self.new.begun.items self.new.replies.items self.new.is_over (H.things self.new.shelf) (H.faults self.new.shelf))) }
        ensures nothing_heard { IfOk result (λ count. count ≡ 0
            → state self.new.begun.items self.new.replies.items self.new.is_over (H.things self.new.shelf) (H.faults self.new.shelf)
            ≡ state self.old.begun.items self.old.replies.items self.old.is_over (H.things self.old.shelf) (H.faults self.old.shelf)) }

        // Once the toy has ended each further piece fails, and none fails before.
        ensures ended_fails { self.old.is_over ≡ true → 0 < length bytes.now → result ≡ Err Trouble.Failed }
        ensures failed_ended { OnFailed result (self.old.is_over ≡ true) }
        ensures failed_stays { OnFailed result (state self.new.begun.items self.new.replies.items self.new.is_over (H.things self.new.shelf) (H.faults self.new.shelf)
            ≡ state self.old.begun.items self.old.replies.items self.old.is_over (H.things self.old.shelf) (H.faults self.old.shelf)) }
        ensures failed_rose { OnFailed result (Rose self.old.faults self.new.faults) }
        ensures no_memory { OnNoMemory result (HasGivenUpWithin self.old.begun.items bytes.now
            (state self.old.begun.items self.old.replies.items self.old.is_over (H.things self.old.shelf) (H.faults self.old.shelf))
            (state self.new.begun.items self.new.replies.items self.new.is_over (H.things self.new.shelf) (H.faults self.new.shelf))) }
        ensures taken_stays { take self.new.at self.new.replies.items ≡ take self.old.at self.old.replies.items }
        ensures shelf_faults_never_fall { H.faults self.old.shelf ≤ H.faults self.new.shelf }
        ensures faults_never_fall { self.old.faults ≤ self.new.faults }
        ensures ends_stay { self.new.ends ≡ self.old.ends }
    {
        if bytes.is_empty() {
            return Ok(0);
        }
        if self.is_over {
            self.faults = self.faults.saturating_add(1);
            return Err(Trouble::Failed);
        }
        let count = bytes.len().min(missing(self.begun.as_slice()));
        let heard = hear_part(
            alloc,
            &mut self.shelf,
            &mut self.begun,
            &mut self.replies,
            &bytes[..count],
        );
        self.is_over = heard.is_err();
        match heard {
            Ok(()) => Ok(count as u64),
            Err(Ending::NoRequest) => Ok(count as u64),
            Err(Ending::NoMemory) => Err(Trouble::OutOfMemory),
        }
    }
}

// Hears some more bytes of the frame that is begun, and answers it if it is whole then.
fn hear_part<H: Shelf>(
    alloc: Global,
    shelf: &mut H,
    begun: &mut Vec<u8>,
    replies: &mut Vec<u8>,
    more: &[u8],
) -> Result<(), Ending>
    requires { Fits (begun.old.items ++ more.now) }
    ensures step { IsStep result (begun.old.items ++ more.now)
        (state begun.old.items replies.old.items false (H.things shelf.old) (H.faults shelf.old))
        (state begun.new.items replies.new.items (is_err result) (H.things shelf.new) (H.faults shelf.new)) }
    ensures shelf_faults_never_fall { H.faults shelf.old ≤ H.faults shelf.new }
{
    begun.extend_from_slice(more)?;
    match reach_of(begun.as_slice()) {
        Reach::Part => return Ok(()),
        Reach::BadLength => return Err(Ending::NoRequest),
        Reach::Whole => {}
    }
    let reply = answered(alloc, shelf, &begun[HEADER..])?;
    add_frame(replies, reply.as_slice())?;
    begun.clear();
    Ok(())
}

impl<H: Shelf + Send, C: Covering> Pipe for ToyPipe<H, C> {
    ghost use Rattle.std.specs.Prelude.{None, Some, take, drop};

    type Cover = C;

    ghost faults = { λ pipe. pipe.faults };

    ghost ends = { λ pipe. pipe.ends };

    ghost given = { λ _. None };

    ghost taken = { λ pipe. Some (take pipe.at pipe.replies.items) };

    ghost left = { λ pipe. Some (drop pipe.at pipe.replies.items) };

    fn give(&mut self, alloc: Global, _cover: Option<&C>, bytes: &[u8]) -> Result<u64, Trouble> {
        self.hear(alloc, bytes)
    }

    fn take(&mut self, into: &mut [u8]) -> Result<u64, Failed> {
        let count = into.len().min(self.replies.len() - self.at);
        if count == 0 && !into.is_empty() {
            self.ends = self.ends.saturating_add(1);
        }
        into[..count].copy_from_slice(&self.replies[self.at..self.at + count]);
        self.at += count;
        Ok(count as u64)
    }
}
