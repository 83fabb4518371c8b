//! What the definitions of a history come to: laws that show that they say what is meant.
#![tactic(auto)]

mod anew;
mod apart;
mod closure;
mod kept;
mod order;
mod quiet;
mod soundness;

pub use anew::{anew_read, anew_sound};
pub use apart::{goals_apart, states_apart, turned_once};
pub use closure::{chain_closed, chain_least};
pub use kept::{sent_sourced, unsaved_stays};
pub use order::{deleted_after_dependents, gone_after_dependents};
pub use pl_model_stays;
pub use quiet::{preview_recorded, quiet_is_done};
pub use soundness::{begun_covered, states_sound};
