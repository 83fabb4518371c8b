//! A thing is replaced, and a second one depends on it; the new one is made before the old one is deleted.

ghost use Rattle.std.specs.Prelude.{◌≡◌, [], ◌∷◌, codes, false, None, Some, true};
ghost use Rattle.pl_events.specs.declared.event.Answer.{Answer};
ghost use Rattle.pl_events.specs.declared.operation.Ask.{Ask};
ghost use Rattle.pl_decide.specs.declared.decision.Decision.{Decision};
ghost use Rattle.pl_decide.specs.declared.problem.Problem.{Problem};
ghost use Rattle.pl_model.specs.declared.work.Work.TheVariants.{Keep as to_keep, Post as to_post, Send as to_send};
ghost use Rattle.pl_model.specs.Due.{has_open, over_limit};
ghost use Rattle.pl_model.specs.Plan.{plan_by};
ghost use Rattle.pl_model.specs.Rows.{is_doomed, left_rows};
ghost use Rattle.pl_model_rows.specs.CreateFirst.{a_creating, a_deleting, b_entry, events, new_a, old_a, protected_run, replaced_a, run};
ghost use Rattle.pl_model_rows.specs.Pieces.{a_urn, b_urn, checks_inputs, checks_provider, compares, configures, creates, deletes, fixed_at, provider_entry, provider_urn, stack_entry, stack_urn, state_with};
ghost use Rattle.pl_model_rows.specs.Prefixes.{answer_at, ask_at, choices_of, decision_at, due_at, due_on_at, known_at, known_end, marks_of, state_at};

/// The states: what is recorded stands before what is left, and the replaced row is marked and stands where it stood.
pub fn states()
    ensures creating { state_at run events 14 ≡ state_with (stack_entry ∷ provider_entry ∷ old_a ∷ b_entry ∷ []) (a_creating ∷ []) }
    ensures created { state_at run events 15 ≡ state_with (stack_entry ∷ provider_entry ∷ new_a ∷ replaced_a ∷ b_entry ∷ []) [] }
    ensures kept { state_at run events 22 ≡ state_with (stack_entry ∷ provider_entry ∷ new_a ∷ b_entry ∷ replaced_a ∷ []) [] }
    ensures deleting { state_at run events 25
        ≡ state_with (stack_entry ∷ provider_entry ∷ new_a ∷ b_entry ∷ replaced_a ∷ []) (a_deleting ∷ []) }
    ensures deleted { state_at run events 26 ≡ state_with (stack_entry ∷ provider_entry ∷ new_a ∷ b_entry ∷ []) [] }
{}

/// What is decided, which rows are left and to be deleted, and after which events the state is saved.
pub fn decisions()
    ensures replaced { decision_at run events 13 2 ≡ Some (Decision.Replace true) }
    ensures kept { decision_at run events 21 3 ≡ Some Decision.Keep }
    ensures left { left_rows (known_at run events 15) ≡ 2 ∷ 3 ∷ [] }
    ensures not_yet { is_doomed (known_at run events 23) 2 ≡ false }
    ensures doomed { is_doomed (known_at run events 24) 2 ≡ true }
    ensures saved { marks_of run events ≡ 2 ∷ 9 ∷ 14 ∷ 15 ∷ 22 ∷ 25 ∷ 26 ∷ [] }
{}

/// What is chosen as the history goes on.
pub fn choices()
    ensures { choices_of run events
        ≡ None ∷ Some (to_keep 0) ∷ Some (to_post 1) ∷ None
        ∷ Some (to_send (checks_provider 1)) ∷ None ∷ Some (to_send (configures 1)) ∷ None
        ∷ Some (to_keep 1)
        ∷ Some (to_send (checks_inputs 2)) ∷ None ∷ Some (to_send (compares 2)) ∷ None
        ∷ Some (to_send (creates 2)) ∷ None ∷ Some (to_post 2) ∷ None
        ∷ Some (to_send (checks_inputs 3)) ∷ None ∷ Some (to_send (compares 3)) ∷ None
        ∷ Some (to_keep 3) ∷ Some (to_post 3) ∷ None
        ∷ Some (to_send (deletes 2)) ∷ None ∷ None ∷ [] }
{}

/// What the provider is asked.
pub fn asks()
    ensures diff { ask_at run events 11 (compares 2) ≡ Some (Ask.Diff a_urn (codes "a-1") (fixed_at 1) (fixed_at 1) (fixed_at 2)) }
    ensures create { ask_at run events 13 (creates 2) ≡ Some (Ask.Create a_urn (fixed_at 2)) }
    ensures delete { ask_at run events 24 (deletes 2) ≡ Some (Ask.Delete a_urn (codes "a-1") (fixed_at 1) (fixed_at 1)) }
    ensures lane { due_on_at run events 24 (deletes 2) 0 ≡ true }
    ensures early { due_on_at run events 23 (deletes 2) 0 ≡ false }
{}

/// The same over a protected row, which is not replaced.
pub fn over_protected_row()
    ensures refused { decision_at protected_run events 13 2 ≡ Some (Decision.Refused (Problem.Protected a_urn)) }
    ensures told { (known_at protected_run events 13).problems ≡ (12, Problem.Protected a_urn) ∷ [] }
    ensures state { state_at protected_run events 13 ≡ protected_run.base }
    ensures due { due_at protected_run events 13 ≡ to_post 2 ∷ [] }
    ensures answer { answer_at protected_run events 13 2 ≡ Answer.Refused (codes "halted") }
{}

/// How it ends.
pub fn end()
    ensures planned { plan_by (known_end run events)
        ≡ (stack_urn, codes "same") ∷ (provider_urn, codes "same") ∷ (a_urn, codes "create-replacement") ∷ (b_urn, codes "same")
        ∷ (a_urn, codes "delete-replaced") ∷ [] }
    ensures no_problem { (known_end run events).problems ≡ [] }
    ensures closed { has_open (known_end run events) ≡ false }
    ensures nothing_due { due_at run events 26 ≡ [] }
    ensures nothing_over { over_limit (known_end run events) ≡ [] }
{}
