ghost use Rattle.std.specs.Prelude.{◌≡◌, ℕ, ◌+◌, ◌<◌, ◌≤◌, false, true, length, vec_len, IfOk, OnOk, OnErr, IfSome, []};
ghost use Rattle.pl_world.specs.Counts.{Rose};
ghost use Rattle.pl_world.specs.Told.{Gave, GavePart, Took, TookMore, cover_text};
ghost use Rattle.pl_world.specs.Causes.{OnFailed, OnNoMemory};
ghost use Rattle.pl_world.specs.Frames.{IsBody, length_bytes, frame_of};
ghost use Rattle.pl_world.specs.FrameIn.{OnFault, OnInputEnd, IsCutAt, TakesFor};

use crate::pipe::Pipe;
use crate::trouble::Trouble;
use pl_value::Bytes;
use std::alloc::{AllocError, Global};
use thiserror::Error;

/// The most bytes that the body of a frame has.
pub const MAX_BODY: usize = 4_194_304;

const HEADER: usize = 4;

const CHUNK: usize = 8192;

/// Why no frame was read.
#[derive(Debug, Drop, Error)]
pub enum FrameIn {
    /// A fault of the pipe.
    #[error("the pipe failed")]
    Fault,
    /// The input ended before the first byte of a frame.
    #[error("the input ended")]
    End,
    /// The input ended within a frame, of which these bytes had come.
    #[error("the input ended within a frame")]
    CutShort(Bytes),
    /// A length above the limit.
    #[error("a frame of {0} bytes is too long")]
    TooLong(u64),
    /// The length 0.
    #[error("an empty frame")]
    Empty,
    #[error("out of memory")]
    OutOfMemory,
}

impl From<Trouble> for FrameIn {
    ghost use Rattle.std.specs.Prelude.{◌≡◌};
    ghost use Rattle.pl_world.specs.FrameIn.{frame_trouble};

    ghost from_gives = { λ trouble answer. answer ≡ frame_trouble trouble };

    fn from(trouble: Trouble) -> FrameIn {
        match trouble {
            Trouble::Failed => FrameIn::Fault,
            Trouble::OutOfMemory => FrameIn::OutOfMemory,
        }
    }
}

impl From<AllocError> for FrameIn {
    ghost use Rattle.std.specs.Prelude.{◌≡◌};
    ghost use Rattle.pl_world.specs.declared.frames.FrameIn.{FrameIn};

    ghost from_gives = { λ _ answer. answer ≡ FrameIn.OutOfMemory };

    fn from(_error: AllocError) -> FrameIn {
        FrameIn::OutOfMemory
    }
}

/// Gives the frame of a body, each piece with the cover.
pub fn write_frame<Q: Pipe>(
    alloc: Global,
    pipe: &mut Q,
    cover: Option<&Q::Cover>,
    body: &[u8],
) -> Result<(), Trouble>
    requires { IsBody body.now }
    ensures frame_given { OnOk result (Gave (Q.given pipe.old) (Q.given pipe.new) (frame_of body.now) (cover_text Q.Cover.text cover.entry)) }
    ensures part_given { OnErr result (GavePart (Q.given pipe.old) (Q.given pipe.new) (frame_of body.now) (cover_text Q.Cover.text cover.entry)) }
    ensures failed_rose { OnFailed result (Rose (Q.faults pipe.old) (Q.faults pipe.new)) }
    ensures taken_stays { Q.taken pipe.new ≡ Q.taken pipe.old }
    ensures faults_never_fall { Q.faults pipe.old ≤ Q.faults pipe.new }
    ensures ends_never_fall { Q.ends pipe.old ≤ Q.ends pipe.new }
{
    let header = (body.len() as u32).to_be_bytes();
    give_all(alloc, pipe, cover, &header)?;
    give_all(alloc, pipe, cover, body)
}

// Gives all of the bytes, however the pipe cuts them.
fn give_all<Q: Pipe>(
    alloc: Global,
    pipe: &mut Q,
    cover: Option<&Q::Cover>,
    bytes: &[u8],
) -> Result<(), Trouble>
    ensures all_given { OnOk result (Gave (Q.given pipe.old) (Q.given pipe.new) bytes.now (cover_text Q.Cover.text cover.entry)) }
    ensures part_given { OnErr result (GavePart (Q.given pipe.old) (Q.given pipe.new) bytes.now (cover_text Q.Cover.text cover.entry)) }
    ensures failed_rose { OnFailed result (Rose (Q.faults pipe.old) (Q.faults pipe.new)) }
    ensures taken_stays { Q.taken pipe.new ≡ Q.taken pipe.old }
    ensures faults_never_fall { Q.faults pipe.old ≤ Q.faults pipe.new }
    ensures ends_never_fall { Q.ends pipe.old ≤ Q.ends pipe.new }
{
    let mut sent: usize = 0;
    while sent < bytes.len() {
        let count = pipe.give(alloc, cover, &bytes[sent..])?;
        sent += count as usize;
    }
    Ok(())
}

/// Reads one frame, and answers its body.
pub fn read_frame<Q: Pipe>(alloc: Global, pipe: &mut Q) -> Result<Bytes, FrameIn>
    ensures taken { TakesFor result (Took (Q.taken pipe.old) (Q.taken pipe.new) (Q.left pipe.old) (Q.left pipe.new)) }
    ensures fault_rose { OnFault result (Rose (Q.faults pipe.old) (Q.faults pipe.new)) }
    ensures end_rose { OnInputEnd result (Rose (Q.ends pipe.old) (Q.ends pipe.new)) }
    ensures end_left_nothing { OnInputEnd result (IfSome (Q.left pipe.new) (λ rest. rest ≡ [])) }
    ensures given_stays { Q.given pipe.new ≡ Q.given pipe.old }
    ensures faults_never_fall { Q.faults pipe.old ≤ Q.faults pipe.new }
    ensures ends_never_fall { Q.ends pipe.old ≤ Q.ends pipe.new }
{
    let mut header = Vec::new(alloc);
    if !fill(pipe, &mut header, HEADER)? {
        return Err(cut_short(header));
    }
    let length = length_of(&header);
    if length == 0 {
        return Err(FrameIn::Empty);
    }
    if length as usize > MAX_BODY {
        return Err(FrameIn::TooLong(u64::from(length)));
    }
    let mut body = Vec::new(alloc);
    if !fill(pipe, &mut body, length as usize)? {
        header.extend_from_slice(&body)?;
        return Err(cut_short(header));
    }
    Ok(Bytes::from_vec(body))
}

// The length that four bytes spell.
fn length_of(header: &[u8]) -> u32
    requires { length header.now ≡ HEADER }
    ensures { length_bytes result ≡ header.now }
{
    u32::from_be_bytes([header[0], header[1], header[2], header[3]])
}

// The answer for an input that ended after these bytes of a frame.
fn cut_short(bytes: Vec<u8>) -> FrameIn
    ensures { IsCutAt bytes.items result }
{
    if bytes.is_empty() {
        FrameIn::End
    } else {
        FrameIn::CutShort(Bytes::from_vec(bytes))
    }
}

// Takes bytes until so many are kept, and says whether that many came before the end of the input.
fn fill<Q: Pipe>(pipe: &mut Q, kept: &mut Vec<u8>, target: usize) -> Result<bool, Trouble>
    requires { vec_len kept.old ≤ target }
    ensures took { TookMore (Q.taken pipe.old) (Q.taken pipe.new) (Q.left pipe.old) (Q.left pipe.new) kept.old.items kept.new.items }
    ensures full { IfOk result (λ all. all ≡ true → vec_len kept.new ≡ target) }
    ensures short { IfOk result (λ all. all ≡ false → vec_len kept.new < target) }
    ensures trouble_short { OnErr result (vec_len kept.new < target) }
    ensures fault_rose { OnFailed result (Rose (Q.faults pipe.old) (Q.faults pipe.new)) }
    ensures end_rose { IfOk result (λ all. all ≡ false → Rose (Q.ends pipe.old) (Q.ends pipe.new)) }
    ensures end_left_nothing { IfOk result (λ all. all ≡ false → IfSome (Q.left pipe.new) (λ rest. rest ≡ [])) }
    ensures given_stays { Q.given pipe.new ≡ Q.given pipe.old }
    ensures faults_never_fall { Q.faults pipe.old ≤ Q.faults pipe.new }
    ensures ends_never_fall { Q.ends pipe.old ≤ Q.ends pipe.new }
{
    let mut buffer = [0u8; CHUNK];
    while kept.len() < target {
        let room = (target - kept.len()).min(CHUNK);
        if !take_some(pipe, kept, &mut buffer[..room])? {
            return Ok(false);
        }
    }
    Ok(true)
}

// Takes bytes through the buffer and keeps them, and says whether any came before the end of the input.
fn take_some<Q: Pipe>(pipe: &mut Q, kept: &mut Vec<u8>, buffer: &mut [u8]) -> Result<bool, Trouble>
    requires { 0 < length buffer.old }
    ensures took { TookMore (Q.taken pipe.old) (Q.taken pipe.new) (Q.left pipe.old) (Q.left pipe.new) kept.old.items kept.new.items }
    ensures within { vec_len kept.new ≤ vec_len kept.old + length buffer.old }
    ensures some_came { IfOk result (λ some. some ≡ true → vec_len kept.old < vec_len kept.new) }
    ensures none_came { IfOk result (λ some. some ≡ false → vec_len kept.new ≡ vec_len kept.old) }
    ensures trouble_kept { OnErr result (vec_len kept.new ≡ vec_len kept.old) }
    ensures fault_rose { OnFailed result (Rose (Q.faults pipe.old) (Q.faults pipe.new)) }
    ensures end_rose { IfOk result (λ some. some ≡ false → Rose (Q.ends pipe.old) (Q.ends pipe.new)) }
    ensures end_left_nothing { IfOk result (λ some. some ≡ false → IfSome (Q.left pipe.new) (λ rest. rest ≡ [])) }
    ensures given_stays { Q.given pipe.new ≡ Q.given pipe.old }
    ensures faults_never_fall { Q.faults pipe.old ≤ Q.faults pipe.new }
    ensures ends_never_fall { Q.ends pipe.old ≤ Q.ends pipe.new }
{
    // With room for all of the buffer kept, nothing that was taken is lost.
    kept.reserve(buffer.len())?;
    let count = pipe.take(buffer)? as usize;
    kept.extend_from_slice(&buffer[..count])?;
    Ok(count > 0)
}
