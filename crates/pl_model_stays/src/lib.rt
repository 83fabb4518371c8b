//! What stays when a history grows, what happens once, and what is chosen next: the laws of a history's definitions that
//! whoever keeps what it tells stands on.
#![tactic(auto)]

mod choice;
mod kept;
mod laws;
mod left;
mod order;

pub use choice::{
    checked_or_new, chosen_lane_due, lane_there_least, table_decides, table_tells, taken_or_none,
    too_many_agrees,
};
pub use kept::{due_asked, due_opens, entries_stay, recorded_has_entry};
pub use laws::{
    begun_once, closed_once, decisions_stay, goals_stay, recorded_once, recordings_stay,
    requests_stay,
};
pub use left::{left_falls, left_stays};
pub use order::{recorded_after_references, sent_after_references};
pub use pl_model;
