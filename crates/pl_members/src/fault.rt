use pl_value::OutOfMemory;
use thiserror::Error;

/// Why nothing was read.
#[derive(Debug, Drop, Error)]
pub enum Unread {
    /// The bytes or the data have another form than what is read.
    #[error("another form")]
    WrongForm,
    #[error("out of memory")]
    OutOfMemory,
}

impl From<OutOfMemory> for Unread {
    ghost use Rattle.std.specs.Prelude.{◌≡◌};
    ghost use Rattle.pl_members.specs.declared.fault.Unread.TheVariants.{OutOfMemory};

    ghost from_gives = { λ _ made. made ≡ OutOfMemory };

    fn from(_error: OutOfMemory) -> Unread {
        Unread::OutOfMemory
    }
}
