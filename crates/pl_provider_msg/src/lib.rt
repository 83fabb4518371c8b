//! The messages between the program and a provider: what a provider is asked, and what it replies.
#![tactic(auto)]

mod asked;
mod asking;
mod laws;
mod members;
mod reasons;
mod replied;
mod replying;
mod words;

pub use asked::ask_of;
pub use asking::request_bytes;
pub use laws::{messages_are_read, messages_are_read_again, replies_fit};
pub use pl_events::{Ask, Call, Reply};
pub use pl_members::{MsgIn, MsgOut};
pub use replied::reply_of;
pub use replying::reply_bytes;
