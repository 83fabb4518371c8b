use pl_value::OutOfMemory;
use std::alloc::{AllocError, AllocFailed};
use thiserror::Error;

/// The outside did not do what it was asked to.
#[derive(Clone, Copy, Debug, PartialEq, Eq, Error)]
#[error("the outside failed")]
pub struct Failed;

/// Why a call of the outside did not do what it was asked to.
#[derive(Clone, Copy, Debug, PartialEq, Eq, Error)]
pub enum Trouble {
    /// A fault of the outside; the count of faults of the object rose.
    #[error("the outside failed")]
    Failed,
    /// No memory was found; nothing was done.
    #[error("out of memory")]
    OutOfMemory,
}

impl From<OutOfMemory> for Trouble {
    ghost use Rattle.std.specs.Prelude.{◌≡◌};
    ghost use Rattle.pl_world.specs.declared.trouble.Trouble.{Trouble};

    ghost from_gives = { λ _ trouble. trouble ≡ Trouble.OutOfMemory };

    fn from(_error: OutOfMemory) -> Trouble {
        Trouble::OutOfMemory
    }
}

impl From<AllocError> for Trouble {
    ghost use Rattle.std.specs.Prelude.{◌≡◌};
    ghost use Rattle.pl_world.specs.declared.trouble.Trouble.{Trouble};

    ghost from_gives = { λ _ trouble. trouble ≡ Trouble.OutOfMemory };

    fn from(_error: AllocError) -> Trouble {
        Trouble::OutOfMemory
    }
}

impl From<Failed> for Trouble {
    ghost use Rattle.std.specs.Prelude.{◌≡◌};
    ghost use Rattle.pl_world.specs.declared.trouble.Trouble.{Trouble};

    ghost from_gives = { λ _ trouble. trouble ≡ Trouble.Failed };

    fn from(_error: Failed) -> Trouble {
        Trouble::Failed
    }
}

impl<T: Drop> From<AllocFailed<T>> for Trouble {
    ghost use Rattle.std.specs.Prelude.{◌≡◌};
    ghost use Rattle.pl_world.specs.declared.trouble.Trouble.{Trouble};

    ghost from_gives = { λ _ trouble. trouble ≡ Trouble.OutOfMemory };

    fn from(_error: AllocFailed<T>) -> Trouble {
        Trouble::OutOfMemory
    }
}
