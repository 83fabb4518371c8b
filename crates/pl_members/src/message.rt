ghost use Rattle.std.specs.Prelude.{◌≡◌, ◌<◌, ◌≤◌, IfErr, IfOk, length};
ghost use Rattle.pl_members.specs.Message.{IfTooLong};
ghost use Rattle.pl_world.specs.declared.frames.TheConstants.{MAX_BODY};

use pl_value::{Bytes, OutOfMemory};
use pl_world::MAX_BODY;
use std::alloc::AllocError;
use thiserror::Error;

/// Why no message was read.
#[derive(Debug, Drop, Error)]
pub enum MsgIn {
    /// The bytes are no message of the form that is read.
    #[error("not a message")]
    NotAMessage,
    #[error("out of memory")]
    OutOfMemory,
}

/// Why a message was not written.
#[derive(Debug, Drop, Error)]
pub enum MsgOut {
    /// The message would have this many bytes, more than the body of a frame may have.
    #[error("a message of {0} bytes")]
    TooLong(u64),
    #[error("out of memory")]
    OutOfMemory,
}

impl From<OutOfMemory> for MsgOut {
    ghost use Rattle.std.specs.Prelude.{◌≡◌};
    ghost use Rattle.pl_members.specs.declared.message.MsgOut.TheVariants.{OutOfMemory};

    ghost from_gives = { λ _ made. made ≡ OutOfMemory };

    fn from(_error: OutOfMemory) -> MsgOut {
        MsgOut::OutOfMemory
    }
}

impl From<AllocError> for MsgOut {
    ghost use Rattle.std.specs.Prelude.{◌≡◌};
    ghost use Rattle.pl_members.specs.declared.message.MsgOut.TheVariants.{OutOfMemory};

    ghost from_gives = { λ _ made. made ≡ OutOfMemory };

    fn from(_error: AllocError) -> MsgOut {
        MsgOut::OutOfMemory
    }
}

/// The bytes as a message, unless they are too many for the body of a frame.
pub fn fitting(bytes: Vec<u8>) -> Result<Bytes, MsgOut>
    ensures bytes { IfOk result (λ made. made ≡ bytes.items) }
    ensures fits { IfOk result (λ made. length made ≤ MAX_BODY) }
    ensures too_long { IfErr result (λ error. IfTooLong error (λ len. len ≡ length bytes.items)) }
    ensures over { IfErr result (λ error. IfTooLong error (λ len. MAX_BODY < len)) }
{
    if bytes.len() > MAX_BODY {
        return Err(MsgOut::TooLong(bytes.len() as u64));
    }
    Ok(Bytes::from_vec(bytes))
}
