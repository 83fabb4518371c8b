//! The messages between the program and a host: the words that a host sends, and the answers to its
//! requests.
#![tactic(auto)]

mod answer;
mod field;
mod register;
mod word;

pub use answer::{answer_bytes, halted_bytes};
pub use pl_members::{MsgIn, MsgOut};
pub use word::{HostWord, request_of};
