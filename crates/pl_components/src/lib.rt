//! The definitions over a run's history that the engine's contracts cite, for runs of components alone. They
//! stand in `specs/`; the crate's one function says that they come to the whole definitions of pl_model.
#![tactic(auto)]

mod laws;

pub use laws::components_are_histories;
pub use pl_decide;
pub use pl_events;
pub use pl_model;
pub use pl_state;
