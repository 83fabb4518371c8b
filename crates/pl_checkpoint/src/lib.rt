//! The checkpoint of a stack: the bytes that are saved, and what bytes read as.
#![tactic(auto)]

mod deployment;
mod entry;
mod kept;
mod kinds;
mod lists;
mod operation;
mod path;
mod reader;
mod sections;
mod version;

pub use pl_checkpoint_text::{
    ReadFault, join_text, read_is_readable, spell_entry, spell_pending, spelled_is_read,
    text_is_read, text_tells_state, write,
};
pub use reader::read;
