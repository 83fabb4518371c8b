use pl_value::{OutOfMemory, Text};
use thiserror::Error;

/// Why no program was read.
#[derive(Debug, Drop, Error)]
pub enum ProgramFault {
    /// The bytes are of another form than a program file.
    #[error("bad program")]
    BadProgram,
    #[error("out of memory")]
    OutOfMemory,
}

/// Why a value with references was not filled.
#[derive(Debug, Drop, Error)]
pub enum Unfilled {
    /// The resource of this name has no output under this key, or one that may not stand where it is referred to.
    #[error("a missing output")]
    Missing { name: Text, key: Text },
    #[error("out of memory")]
    OutOfMemory,
}

impl From<OutOfMemory> for Unfilled {
    ghost use Rattle.std.specs.Prelude.{◌≡◌};
    ghost use Rattle.pl_program_file.specs.declared.fault.Unfilled.TheVariants.{OutOfMemory};

    ghost from_gives = { λ _ made. made ≡ OutOfMemory };

    fn from(_error: OutOfMemory) -> Unfilled {
        Unfilled::OutOfMemory
    }
}
