//! The goal that a registration makes, and the names of providers that nobody registered.
#![tactic(auto)]

mod fault;
mod goal;
mod ignored;
mod names;
mod reading;
mod vectors;

pub use fault::GoalFault;
pub use goal::{aliased_urns, goal_of};
pub use ignored::with_ignored;
pub use names::{default_name, default_provider_urn, id_of};
pub use pl_path;
pub use pl_state::{Goal, OptionFault, Registration};
pub use vectors::{
    default_vectors, goal_vectors, id_vectors, ignored_vectors, order_vectors, refusal_vectors,
};
