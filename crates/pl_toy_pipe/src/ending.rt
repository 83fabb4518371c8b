use std::alloc::AllocError;

/// Why a toy answers no more.
#[derive(Clone, Copy)]
pub(crate) enum Ending {
    /// Bytes came that are no request.
    NoRequest,
    /// No memory was found.
    NoMemory,
}

impl From<AllocError> for Ending {
    ghost use Rattle.std.specs.Prelude.{◌≡◌};
    ghost use Rattle.pl_toy_pipe.specs.declared.ending.Ending.TheVariants.{NoMemory};

    ghost from_gives = { λ _ ending. ending ≡ NoMemory };

    fn from(_error: AllocError) -> Ending {
        Ending::NoMemory
    }
}
