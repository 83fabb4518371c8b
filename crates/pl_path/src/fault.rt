use pl_value::OutOfMemory;
use thiserror::Error;

/// Why a text is no path.
#[derive(Clone, Copy, Debug, PartialEq, Eq, Error)]
pub enum PathFault {
    /// The place of the first byte at which no path goes on, from 0; of a name that is `*` alone its place. A
    /// text that is cut off is refused at its length.
    #[error("no path from byte {0} on")]
    BadPath(u64),
    #[error("out of memory")]
    OutOfMemory,
}

impl From<OutOfMemory> for PathFault {
    ghost use Rattle.std.specs.Prelude.{◌≡◌};
    ghost use Rattle.pl_path.specs.declared.fault.PathFault.TheVariants.{OutOfMemory};

    ghost from_gives = { λ _ fault. fault ≡ OutOfMemory };

    fn from(_error: OutOfMemory) -> PathFault {
        PathFault::OutOfMemory
    }
}
