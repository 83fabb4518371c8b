//! The text of a checkpoint: how a state is spelled, the bytes that are saved, and the laws that tie the text to what it reads as.
#![tactic(auto)]

mod fault;
mod joining;
mod laws;
mod members;
mod read_laws;
mod spelling;
mod unread;

pub use fault::ReadFault;
pub use joining::join_text;
pub use laws::text_tells_state;
pub use members::Members;
pub use read_laws::{read_is_readable, spelled_is_read, text_is_read};
pub use spelling::{spell_entry, spell_pending, write};
