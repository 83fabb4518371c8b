use pl_state::Entry;

/// What a refresh found in place of one row of the base.
#[derive(Debug, Drop)]
pub enum RowNow {
    /// The row was not read.
    AsItWas,
    /// The thing is there; the entry that its row becomes.
    Found(Entry),
    /// The thing is there no more.
    Gone,
}
