use pl_state::OptionFault;
use pl_value::{OutOfMemory, Text};
use thiserror::Error;

/// Why a registration makes no goal.
#[derive(Debug, Drop, Error)]
pub enum GoalFault {
    #[error("{0}")]
    Option(OptionFault),
    #[error("out of memory")]
    OutOfMemory,
}

impl From<OutOfMemory> for GoalFault {
    ghost use Rattle.std.specs.Prelude.{◌≡◌};
    ghost use Rattle.pl_options.specs.declared.fault.GoalFault.TheVariants.{OutOfMemory};

    ghost from_gives = { λ _ fault. fault ≡ OutOfMemory };

    fn from(_error: OutOfMemory) -> GoalFault {
        GoalFault::OutOfMemory
    }
}

/// The text at which a reading stopped, since it does not pass, or the want of memory that stopped it.
#[derive(Debug, Drop)]
pub enum BadText {
    Refused(Text),
    OutOfMemory,
}

impl From<OutOfMemory> for BadText {
    ghost use Rattle.std.specs.Prelude.{◌≡◌};
    ghost use Rattle.pl_options.specs.declared.fault.BadText.TheVariants.{OutOfMemory};

    ghost from_gives = { λ _ fault. fault ≡ OutOfMemory };

    fn from(_error: OutOfMemory) -> BadText {
        BadText::OutOfMemory
    }
}
