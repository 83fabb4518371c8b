//! An alias turns a URN into another one, in an entry's own URN and in its references.
#![tactic(auto)]

mod turning;

pub use turning::{has_mention, is_same, turn_entry};
