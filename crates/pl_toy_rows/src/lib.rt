//! The toy as a provider, over pipes in memory, as a pipe and over folders, as tests.
#![tactic(auto)]

#[cfg(test)]
mod folders;
#[cfg(test)]
mod hosted;
#[cfg(test)]
mod piped;
#[cfg(test)]
mod talks;
