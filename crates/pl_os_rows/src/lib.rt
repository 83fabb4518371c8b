//! Files, children and streams of the system, as tests.
#![tactic(auto)]

#[cfg(test)]
mod outside;
