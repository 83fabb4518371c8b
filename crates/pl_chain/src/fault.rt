use pl_urn::Urn;
use pl_value::OutOfMemory;
use std::alloc::AllocError;
use thiserror::Error;

/// Why a row's chain is not given.
#[derive(Debug, Drop, Error)]
pub enum ChainFault {
    /// The first row of the chain that is protected and would go along.
    #[error("a protected row")]
    Protected(Urn),
    #[error("out of memory")]
    OutOfMemory,
}

impl From<OutOfMemory> for ChainFault {
    ghost use Rattle.std.specs.Prelude.{◌≡◌};
    ghost use Rattle.pl_chain.specs.declared.fault.ChainFault.TheVariants.{OutOfMemory};

    ghost from_gives = { λ _ fault. fault ≡ OutOfMemory };

    fn from(_error: OutOfMemory) -> ChainFault {
        ChainFault::OutOfMemory
    }
}

impl From<AllocError> for ChainFault {
    ghost use Rattle.std.specs.Prelude.{◌≡◌};
    ghost use Rattle.pl_chain.specs.declared.fault.ChainFault.TheVariants.{OutOfMemory};

    ghost from_gives = { λ _ fault. fault ≡ OutOfMemory };

    fn from(_error: AllocError) -> ChainFault {
        ChainFault::OutOfMemory
    }
}
