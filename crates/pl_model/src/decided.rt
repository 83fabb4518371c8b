use pl_decide::Decision;
use pl_value::Fields;

/// What is decided of a goal.
#[derive(Debug, Drop)]
pub struct Decided {
    /// The row of the state at the start that the goal claims.
    pub claim: Option<u64>,
    /// Its inputs as they are checked.
    pub inputs: Fields,
    /// Its inputs as the check gave them.
    pub checked: Fields,
    pub decision: Decision,
}
