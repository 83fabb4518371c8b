ghost use Rattle.std.specs.Prelude.{◌≡◌, IfOk};

use crate::problem::Problem;
use pl_value::OutOfMemory;
use std::alloc::Global;

/// What is to be done for a goal.
#[derive(Debug, Drop)]
pub enum Decision {
    /// The old row stays as it is.
    Keep,
    Create,
    Update,
    /// A new thing is made in place of the old one; where `first` says so, before the old one is deleted.
    Replace { first: bool },
    Import,
    ReadOnly,
    Refused(Problem),
}

impl Decision {
    pub fn copy(&self, alloc: Global) -> Result<Decision, OutOfMemory>
        ensures { IfOk result (λ made. made ≡ self.now) }
    {
        Ok(match self {
            Decision::Keep => Decision::Keep,
            Decision::Create => Decision::Create,
            Decision::Update => Decision::Update,
            Decision::Replace { first } => Decision::Replace { first: *first },
            Decision::Import => Decision::Import,
            Decision::ReadOnly => Decision::ReadOnly,
            Decision::Refused(problem) => Decision::Refused(problem.copy(alloc)?),
        })
    }
}

/// How the provider of a goal stands to that of its old row.
#[derive(Clone, Copy, Debug, PartialEq, Eq)]
pub enum ProviderChange {
    Same,
    /// Another one, and both are default providers.
    BothDefault,
    Other,
}
