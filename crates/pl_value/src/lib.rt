//! Property values and their fields; the small types below them are named again.
#![tactic(auto)]

mod changed;
mod copy;
mod fields;
mod inside;
mod json;
mod laws;
mod marks;
mod mask;
mod same;
mod secrets;
mod sound;
mod value;
mod values;

pub use changed::changed_keys;
pub use fields::{Fields, value_under};
pub use json::JsonFault;
pub use laws::same_tells;
pub use marks::{secret_key, secret_mark, shown_secret, unknown_text};
pub use pl_text::{Bytes, OutOfMemory, Rows, Text, Texts, Words};
pub use secrets::mark_secrets;
pub use sound::{are_fields, are_values, may_stand_under};
pub use value::{MOST_LEVELS, Value};
pub use values::Values;
