//! Who added to a tally, as clauses see it.
use std::snapshot::Snapshot;

/// The numbers of the seats that added one, the last one first.
#[derive(Drop)]
pub enum Story {
    Start,
    After(u64, Snapshot<Story>),
}
