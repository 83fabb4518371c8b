//! Worked histories: what the model's definitions tell of them.
#![tactic(auto)]

pub mod additional_secret_outputs;
pub mod alias_renames_references;
pub mod alias_waits_for_replacement;
pub mod deleted_with_goes_along;
pub mod deleted_with_retained;
pub mod destroy_over_pending_replacement;
pub mod destroy_retains_and_drops;
pub mod first_create;
pub mod import_and_missing_import;
pub mod invoke_and_two_lanes;
pub mod one_component;
pub mod pending_replacement_resumes;
pub mod preview_equals_up;
pub mod protected_dependent_refuses;
pub mod refresh_prunes_and_clears;
pub mod replace_create_first;
pub mod replace_delete_first_takes_chain;
pub mod second_run_keeps_all;
pub mod update_of_one_target;

pub use pl_model;
