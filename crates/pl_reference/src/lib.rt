//! References: lists of URNs, lists that stand under a name, and the providers that a text names.
#![tactic(auto)]

mod copies;
mod keyed;
mod reference;
mod urns;
mod words;

pub use copies::{copy_reference, copy_text, copy_urn};
pub use keyed::{KeyedTexts, KeyedUrns};
pub use reference::{ProviderRef, RefFault, read_ref};
pub use urns::Urns;
pub use words::{Imports, ProviderWords};
