ghost use Rattle.std.specs.Prelude.{◌≡◌, [], ◌∷◌, codes, false, None, Some, true};
ghost use Rattle.pl_state.specs.Chain.{chain_of, provider_row_of, refers_to};
ghost use Rattle.pl_state.specs.Kinds.{is_of_default, is_of_provider};
ghost use Rattle.pl_decide.specs.Examples.{a_urn, all_claims, component_goal, component_kin, creating_plan, external_kin, half_made_kin, importing_goal, no_change, no_claims, no_limits, not_known, one_input, other_target, pending_kin, protected_chain, protected_kin, provider_goal, reading_goal, replacing_change, small_chain, small_plan, some_change, stubborn_goal, thing_goal, thing_kin};
ghost use Rattle.pl_decide.specs.Limited.{final_decision, first_refusal, own_refusal};
ghost use Rattle.pl_decide.specs.Permits.{permits_chained, permits_left, permits_replaced, permits_step, step_name};
ghost use Rattle.pl_decide.specs.Rows.{example_rows, provider_urn, second_thing, stack_urn};
ghost use Rattle.pl_decide.specs.Table.{decide, needs_diff};

use crate::decision::{Decision, ProviderChange};
use crate::problem::Problem;

/// Cases of goals that read or import, and of claims that are only read or are deleted to be made anew.
pub fn reading_and_importing()
    ensures reads { decide None reading_goal ProviderChange.Same [] None ≡ Decision.ReadOnly }
    ensures managed { decide (Some thing_kin) reading_goal ProviderChange.Same [] None ≡ Decision.Refused (Problem.ReadOverManaged a_urn) }
    ensures external { decide (Some external_kin) reading_goal ProviderChange.Same [] None ≡ Decision.ReadOnly }
    ensures over_external { decide (Some external_kin) thing_goal ProviderChange.Same [] None ≡ Decision.Create }
    ensures pending { decide (Some pending_kin) reading_goal ProviderChange.Same [] None ≡ Decision.ReadOnly }
    ensures over_pending { decide (Some pending_kin) thing_goal ProviderChange.Other one_input None ≡ Decision.Create }
    ensures imports { decide None (importing_goal (codes "a")) ProviderChange.Same [] None ≡ Decision.Import }
    ensures other_id { decide (Some thing_kin) (importing_goal (codes "z")) ProviderChange.Same [] None ≡ Decision.Refused (Problem.ImportConflict a_urn) }
    ensures own_id { decide (Some thing_kin) (importing_goal (codes "a")) ProviderChange.Same [] no_change ≡ Decision.Keep }
{}

/// Cases without a diff.
pub fn without_diff()
    ensures creates { decide None thing_goal ProviderChange.Same [] None ≡ Decision.Create }
    ensures custom { decide (Some component_kin) thing_goal ProviderChange.Same [] None ≡ Decision.Refused (Problem.CustomChanged a_urn) }
    ensures component { decide (Some component_kin) component_goal ProviderChange.Other [] None ≡ Decision.Keep }
    ensures component_changed { decide (Some component_kin) component_goal ProviderChange.Same one_input None ≡ Decision.Update }
    ensures provider { decide (Some thing_kin) provider_goal ProviderChange.Same one_input None ≡ Decision.Update }
    ensures other_provider { decide (Some thing_kin) thing_goal ProviderChange.Other [] None ≡ Decision.Replace true }
    ensures asks { needs_diff (Some thing_kin) thing_goal ProviderChange.BothDefault ≡ true }
    ensures asks_over_pending { needs_diff (Some pending_kin) thing_goal ProviderChange.Same ≡ false }
    ensures asks_nothing { needs_diff (Some thing_kin) thing_goal ProviderChange.Other ≡ false }
{}

/// Cases with a diff.
pub fn with_diff()
    ensures none { decide (Some thing_kin) thing_goal ProviderChange.Same one_input no_change ≡ Decision.Keep }
    ensures half_made { decide (Some half_made_kin) thing_goal ProviderChange.Same [] no_change ≡ Decision.Update }
    ensures not_known { decide (Some thing_kin) thing_goal ProviderChange.Same [] not_known ≡ Decision.Keep }
    ensures not_known_changed { decide (Some thing_kin) thing_goal ProviderChange.Same one_input not_known ≡ Decision.Update }
    ensures some { decide (Some thing_kin) thing_goal ProviderChange.Same [] some_change ≡ Decision.Update }
    ensures replaces_first { decide (Some thing_kin) thing_goal ProviderChange.Same [] (replacing_change false) ≡ Decision.Replace true }
    ensures deletes_first { decide (Some thing_kin) thing_goal ProviderChange.Same [] (replacing_change true) ≡ Decision.Replace false }
    ensures as_the_goal_says { decide (Some thing_kin) stubborn_goal ProviderChange.Same [] (replacing_change true) ≡ Decision.Replace true }
    ensures protected { decide (Some protected_kin) thing_goal ProviderChange.Same [] (replacing_change true) ≡ Decision.Refused (Problem.Protected a_urn) }
{}

/// Cases of limits.
pub fn permits()
    ensures unlimited { permits_step no_limits thing_goal Decision.Update ≡ true }
    ensures other { permits_step other_target thing_goal Decision.Update ≡ false }
    ensures keeps { permits_step other_target thing_goal Decision.Keep ≡ true }
    ensures component { permits_step other_target component_goal Decision.Create ≡ true }
    ensures default { permits_step other_target provider_goal Decision.Create ≡ true }
    ensures planned { permits_step small_plan thing_goal Decision.Create ≡ true }
    ensures unplanned { permits_step small_plan thing_goal Decision.Update ≡ false }
    ensures replaced { permits_replaced small_plan a_urn ≡ true }
    ensures chained { permits_chained other_target false false a_urn ≡ false }
    ensures claimed { permits_chained other_target true false a_urn ≡ true }
    ensures left { permits_left small_plan a_urn a_urn ≡ true }
    ensures name { step_name true Decision.Create ≡ codes "create-replacement" }
{}

/// Cases of refusals by the limits and by a chain: of the goal, of its claim alone, by a protected row before the
/// limits, and by a row that the plan leaves out.
pub fn refusals()
    ensures goal { own_refusal small_plan (Some thing_kin) thing_goal Decision.Update ≡ Some (Problem.NotPermitted a_urn) }
    ensures claim { own_refusal creating_plan (Some thing_kin) thing_goal (Decision.Replace true) ≡ Some (Problem.NotPermitted a_urn) }
    ensures permitted { own_refusal small_plan (Some thing_kin) thing_goal (Decision.Replace true) ≡ None }
    ensures protected { first_refusal other_target (Some thing_kin) thing_goal no_claims protected_chain (Decision.Replace false) ≡ Some (Problem.Protected second_thing.urn) }
    ensures unplanned { first_refusal small_plan (Some thing_kin) thing_goal no_claims small_chain (Decision.Replace false) ≡ Some (Problem.NotPermitted second_thing.urn) }
    ensures claimed { first_refusal small_plan (Some thing_kin) thing_goal all_claims protected_chain (Decision.Replace false) ≡ None }
{}

/// Cases of what is decided at last, over a chain.
pub fn final_decisions()
    ensures permitted { final_decision no_limits (Some thing_kin) thing_goal no_claims small_chain (Decision.Replace false) ≡ Decision.Replace false }
    ensures protected { final_decision no_limits (Some thing_kin) thing_goal no_claims protected_chain (Decision.Replace false) ≡ Decision.Refused (Problem.Protected second_thing.urn) }
    ensures unplanned { final_decision small_plan (Some thing_kin) thing_goal no_claims small_chain (Decision.Replace false) ≡ Decision.Refused (Problem.NotPermitted second_thing.urn) }
    ensures created_first { final_decision no_limits (Some thing_kin) thing_goal no_claims protected_chain (Decision.Replace true) ≡ Decision.Replace true }
    ensures refused { final_decision other_target (Some thing_kin) thing_goal no_claims [] (Decision.Refused (Problem.CustomChanged a_urn)) ≡ Decision.Refused (Problem.CustomChanged a_urn) }
{}

/// Cases of chains: of a thing, of a provider that has a double, of the last row, and of no row.
pub fn chains()
    ensures thing { chain_of example_rows 3 ≡ 4 ∷ 5 ∷ [] }
    ensures provider { chain_of example_rows 1 ≡ 3 ∷ 4 ∷ 5 ∷ [] }
    ensures double { chain_of example_rows 2 ≡ [] }
    ensures last { chain_of example_rows 5 ≡ [] }
    ensures missing { chain_of example_rows 9 ≡ [] }
{}

/// Cases of direct references, and of the row of a provider.
pub fn references()
    ensures near { refers_to example_rows 5 4 ≡ true }
    ensures through { refers_to example_rows 5 3 ≡ false }
    ensures later { refers_to example_rows 4 5 ≡ false }
    ensures provider { provider_row_of example_rows 3 ≡ Some 1 }
    ensures unprovided { provider_row_of example_rows 4 ≡ None }
{}

/// Cases of providers' URNs.
pub fn provider_urns()
    ensures provider { is_of_provider provider_urn ≡ true }
    ensures default { is_of_default provider_urn ≡ true }
    ensures stack { is_of_provider stack_urn ≡ false }
{}
