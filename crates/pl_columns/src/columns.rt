use pl_claims::Claims;
use pl_errands::Errands;
use pl_records::Records;
use pl_requests::Requests;
use pl_troubles::Troubles;

/// The columns of a history's summary, in the parts that keep them.
#[derive(Debug, Drop)]
pub struct Columns {
    /// The goals, and the told requests with their fates.
    pub requests: Requests,
    /// The operations by their tickets, and the lanes.
    pub errands: Errands,
    /// What the run is over, what is decided, and which rows are claimed.
    pub claims: Claims,
    /// What was recorded, removed, cleared and answered.
    pub records: Records,
    /// The problems, each with the position of its event.
    pub troubles: Troubles,
}
