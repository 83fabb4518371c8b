//! Checkpoints, program files and JSON values, and the lines that are printed, as tests.
#![tactic(auto)]

#[cfg(test)]
mod json_values;
#[cfg(test)]
mod program_files;
#[cfg(test)]
mod read_states;
#[cfg(test)]
mod shown_lines;
#[cfg(test)]
mod table;
#[cfg(test)]
mod written_states;
