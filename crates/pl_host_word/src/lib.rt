//! The messages of a host, whole and in both directions: the words that a host sends, as it writes them and as the engine
//! reads them, and the answers to its requests, as a host reads them.
#![tactic(auto)]

mod answered;
mod calls;
mod laws;
mod members;
mod options;
mod resource;
mod word;
mod wording;

pub use answered::answer_of;
pub use laws::{messages_are_read, messages_are_read_again, words_fit};
pub use pl_events::{Answer, Request};
pub use pl_members::{MsgIn, MsgOut};
pub use word::{HostWord, word_of};
pub use wording::word_bytes;
