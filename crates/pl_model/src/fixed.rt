use crate::mode::Mode;
use pl_decide::Limits;
use pl_state::Snapshot;
use pl_value::Text;

/// What a run is over, and stays as it is while the run goes on.
#[derive(Debug, Drop)]
pub struct Fixed {
    /// The state at the start.
    pub base: Snapshot,
    pub mode: Mode,
    pub limits: Limits,
    /// How many children of one provider there may be.
    pub parallel: u64,
    pub stack: Text,
    pub project: Text,
}
