//! What is decided of a goal, and what a run comes to: decisions, limits, problems and the outcome.
#![tactic(auto)]

mod decision;
mod kinds;
mod limited;
mod limits;
mod outcome;
mod permitted;
mod problem;
mod table;
mod vectors;

pub use decision::{Decision, ProviderChange};
pub use kinds::{
    is_component, is_importing, is_of_default, is_of_provider, is_provided, is_provided_row,
    is_reading, kin_of,
};
pub use limited::{decide, is_create_first, is_delete_first, is_replacement, own_refusal};
pub use limits::{Limits, PlanLines};
pub use outcome::Outcome;
pub use permitted::{
    is_wanted, permits_chained, permits_left, permits_replaced, permits_step, step_name,
};
pub use problem::{Child, Problem};
pub use table::needs_diff;
pub use vectors::{
    chains, final_decisions, permits, provider_urns, reading_and_importing, references, refusals,
    with_diff, without_diff,
};
