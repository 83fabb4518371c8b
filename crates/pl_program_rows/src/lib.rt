//! The talks of program files over pipes in memory, as tests.
#![tactic(auto)]

#[cfg(test)]
mod generated;
#[cfg(test)]
mod talks;
