//! Names, values, paths and graphs, and the words of the command line, as tests.
#![tactic(auto)]

#[cfg(test)]
mod command_words;
#[cfg(test)]
mod graphs;
#[cfg(test)]
mod paths;
#[cfg(test)]
mod references;
#[cfg(test)]
mod table;
#[cfg(test)]
mod urns;
#[cfg(test)]
mod values;
