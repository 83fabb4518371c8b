ghost use Rattle.std.specs.Prelude.{◌≡◌, IfOk};

use pl_state::Imports;
use pl_value::OutOfMemory;

/// What a run is to do.
#[derive(Debug, Drop)]
pub enum Mode {
    /// Makes things as the host's goals say.
    Up,
    /// Tells what `Up` would do, and does none of it.
    Preview,
    /// Deletes everything.
    Destroy,
    /// Reads everything anew. `clear` lets the pending creations go; each of `imports` names the id of the thing
    /// that a pending creation made.
    Refresh { clear: bool, imports: Imports },
}

impl Mode {
    pub fn copy(&self) -> Result<Mode, OutOfMemory>
        ensures { IfOk result (λ made. made ≡ self.now) }
    {
        Ok(match self {
            Mode::Up => Mode::Up,
            Mode::Preview => Mode::Preview,
            Mode::Destroy => Mode::Destroy,
            Mode::Refresh { clear, imports } => Mode::Refresh {
                clear: *clear,
                imports: imports.copy()?,
            },
        })
    }
}
