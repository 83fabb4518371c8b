//! Property values in JSON: how each is spelled, its text, and what JSON reads as.
#![tactic(auto)]

mod fault;
mod keys;
mod laws;
mod path;
mod reading;
mod spelling;
mod texts;

pub use fault::FieldsFault;
pub use laws::{spelled_is_read, spelling_tells_value};
pub use reading::{read_fields, read_value};
pub use spelling::{spell, spell_fields};
pub use texts::{text_of, text_of_fields};
