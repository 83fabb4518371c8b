//! The lines that a command prints, and how they are written.
#![tactic(auto)]

mod printing;
mod state_lines;
mod stop_line;

pub use printing::print;
pub use state_lines::{resource_lines, sound_line};
pub use stop_line::{reason_path, stopped};
