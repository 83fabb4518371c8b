//! Whole runs of the engine over worlds in memory, as tests.
#![tactic(auto)]

#[cfg(test)]
mod tests;
