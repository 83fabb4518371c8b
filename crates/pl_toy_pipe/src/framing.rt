ghost use Rattle.std.specs.Int.{w32, from_be_bytes};
ghost use Rattle.std.specs.Prelude.{◌≡◌, ◌<◌, ◌≤◌, ◌++◌, ℕ, List, length, OnErr, OnOk};
ghost use Rattle.pl_world.specs.Frames.{IsBody, frame_of, length_bytes};
ghost use Rattle.pl_toy_pipe.specs.Piped.{Fits, IsBegun, IsReached};

use pl_world::MAX_BODY;
use std::alloc::AllocError;

/// How many bytes the length of a frame has.
pub(crate) const HEADER: usize = 4;

/// How far the bytes reach that came of one frame.
#[derive(Clone, Copy)]
pub(crate) enum Reach {
    /// More are missing.
    Part,
    /// They are a frame.
    Whole,
    /// They are a length that no body has.
    BadLength,
}

/// How many bytes are missing of the frame that is begun, as far as its length is known.
pub(crate) fn missing(begun: &[u8]) -> usize
    requires { IsBegun begun.now }
    ensures some { 0 < result }
    ensures fits { (more : List ℕ) → length more ≤ result → Fits (begun.now ++ more) }
{
    let Some((header, body)) = begun.split_first_chunk::<HEADER>() else {
        return HEADER - begun.len();
    };
    let length = length_of(*header) as usize;
    length - body.len()
}

/// How far the bytes reach, of which no more came than the frame has.
pub(crate) fn reach_of(begun: &[u8]) -> Reach
    requires { Fits begun.now }
    ensures { IsReached result begun.now }
{
    let Some((header, body)) = begun.split_first_chunk::<HEADER>() else {
        return Reach::Part;
    };
    let length = length_of(*header) as usize;
    if length == 0 || length > MAX_BODY {
        return Reach::BadLength;
    }
    if body.len() < length {
        Reach::Part
    } else {
        Reach::Whole
    }
}

// The length that four bytes spell.
fn length_of(header: [u8; HEADER]) -> u32
    ensures spelled { length_bytes result ≡ header }
    ensures value { result ≡ from_be_bytes w32 header }
{
    u32::from_be_bytes(header)
}

/// Adds the frame of a body.
pub(crate) fn add_frame(frames: &mut Vec<u8>, body: &[u8]) -> Result<(), AllocError>
    requires { IsBody body.now }
    ensures added { OnOk result (frames.new.items ≡ frames.old.items ++ frame_of body.now) }
    ensures kept { OnErr result (frames.new.items ≡ frames.old.items) }
{
    let header = (body.len() as u32).to_be_bytes();
    frames.reserve(HEADER + body.len())?;
    frames.extend_from_slice(&header)?;
    frames.extend_from_slice(body)
}
