//! The grammar of URNs: they are read, taken apart and made.
#![tactic(auto)]

mod fault;
mod grammar;
mod urn;

pub use fault::UrnFault;
pub use grammar::is_provider_type;
pub use urn::{Urn, child, is_scope, parse};
