use std::alloc::AllocError;
use thiserror::Error;

/// Why a text is no URN, or why there is no such child.
#[derive(Clone, Copy, Debug, PartialEq, Eq, Error)]
pub enum UrnFault {
    /// The text does not begin with `urn:pulumi:`.
    #[error("no prefix of a URN")]
    NoPrefix,
    /// Fewer than three `::` follow the prefix.
    #[error("too few parts of a URN")]
    TooFewParts,
    /// The first part that is empty: 0 the stack, 1 the project, 2 the type or a piece of it between `$`,
    /// 3 the name.
    #[error("part {0} of a URN is empty")]
    EmptyPart(u64),
    /// The type is empty, holds `::` or `$`, or ends in `:`.
    #[error("a bad type")]
    BadType,
    #[error("out of memory")]
    OutOfMemory,
}

impl From<AllocError> for UrnFault {
    ghost use Rattle.std.specs.Prelude.{◌≡◌};
    ghost use Rattle.pl_urn.specs.declared.fault.UrnFault.TheVariants.{OutOfMemory};

    ghost from_gives = { λ _ fault. fault ≡ OutOfMemory };

    fn from(_error: AllocError) -> UrnFault {
        UrnFault::OutOfMemory
    }
}
