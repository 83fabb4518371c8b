//! The members of a message in JSON: what each kind of field may hold, how it is read, and how it is written.
#![tactic(auto)]

mod fault;
mod fields;
mod lists;
mod message;
#[cfg(test)]
mod tests;
mod values;
mod writing;

pub use fault::Unread;
pub use fields::{
    GREATEST_NUMBER, flag_if_there, flag_or, json_of, nonempty_text, present, request_number,
    str_in, text, text_if_there, urn, whole,
};
pub use lists::{keyed_or_none, some_texts, texts_or_none};
pub use message::{MsgIn, MsgOut, fitting};
pub use values::{pairs, pairs_if_there, pairs_of, pairs_or_none};
pub use writing::{
    Members, put_bool, put_fields, put_flag, put_flag_if_some, put_keyed, put_pairs, put_text,
    put_text_if_some, put_texts, spell_texts,
};
