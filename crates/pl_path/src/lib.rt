//! Property paths: they are read, followed into the fields of an object, and set back to older fields.
#![tactic(auto)]

mod fault;
mod found;
mod laws;
mod parsing;
mod reading;
mod reset;
mod segment;
mod vectors;

pub use fault::PathFault;
pub use found::get;
pub use laws::{paths_are_written, reset_holds_old};
pub use parsing::parse;
pub use pl_value;
pub use reset::reset_to_old;
pub use segment::{Path, Segment};
pub use vectors::{
    found_vectors, path_vectors, refusal_vectors, reset_element_vectors, reset_key_vectors,
};
