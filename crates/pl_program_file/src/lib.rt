//! A program file: what it registers, what waits for what, and what is sent once the answers that it uses are there.
#![tactic(auto)]

mod fault;
mod filling;
mod known;
mod names;
mod program;
mod reading;
mod reference;
mod registering;

pub use fault::{ProgramFault, Unfilled};
pub use filling::filled_fields;
pub use known::{Known, known_at};
pub use names::{names_in_fields, names_of};
pub use program::{Links, Program, Resource, Resources, Settings};
pub use reading::read_program;
pub use registering::registration;
