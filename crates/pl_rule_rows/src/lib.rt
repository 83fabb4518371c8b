//! The rules of the engine as calls, as tests.
#![tactic(auto)]

#[cfg(test)]
mod chains;
#[cfg(test)]
mod decisions;
#[cfg(test)]
mod errands;
#[cfg(test)]
mod events;
#[cfg(test)]
mod lanes;
#[cfg(test)]
mod options;
#[cfg(test)]
mod soundness;
#[cfg(test)]
mod table;
