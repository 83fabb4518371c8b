//! The toy as a provider: it answers requests that come over a pipe, one after another, over its shelf.
#![tactic(auto)]

mod asking;
mod ending;
mod serving;
mod speaking;

pub use asking::Request;
pub use serving::serve_toy;
pub use speaking::reply_to;
