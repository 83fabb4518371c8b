//! Lemmas that more than one crate needs: truth values, options, numbers and lists, and the words of definitions over
//! them. No code stands here.
#![tactic(auto)]
