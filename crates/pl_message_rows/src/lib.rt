//! Frames, and the messages of hosts and providers, as tests.
#![tactic(auto)]

#[cfg(test)]
mod exchanges;
#[cfg(test)]
mod frames;
#[cfg(test)]
mod host_answers;
#[cfg(test)]
mod host_messages;
#[cfg(test)]
mod host_words;
#[cfg(test)]
mod provider_messages;
#[cfg(test)]
mod table;
