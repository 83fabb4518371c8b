use pl_state::BadCheckpoint;
use pl_value::OutOfMemory;
use thiserror::Error;

/// Why no state was read.
#[derive(Debug, Drop, Error)]
pub enum ReadFault {
    /// The bytes are no checkpoint.
    #[error("{0}")]
    Bad(BadCheckpoint),
    #[error("out of memory")]
    OutOfMemory,
}

impl From<OutOfMemory> for ReadFault {
    ghost use Rattle.std.specs.Prelude.{◌≡◌};
    ghost use Rattle.pl_checkpoint_text.specs.declared.fault.ReadFault.TheVariants.{OutOfMemory};

    ghost from_gives = { λ _ fault. fault ≡ OutOfMemory };

    fn from(_error: OutOfMemory) -> ReadFault {
        ReadFault::OutOfMemory
    }
}
