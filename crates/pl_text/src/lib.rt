//! The small types below every layer: texts, bytes, lists of them, numbers of rows, and the want of memory.
#![tactic(auto)]

mod bytes;
mod memory;
mod rows;
mod text;
mod texts;
mod words;

pub use bytes::Bytes;
pub use memory::OutOfMemory;
pub use rows::Rows;
pub use text::Text;
pub use texts::Texts;
pub use words::Words;
