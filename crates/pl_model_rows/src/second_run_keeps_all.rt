//! The program of the first creation once more, over what that left.

ghost use Rattle.std.specs.Prelude.{◌≡◌, [], ◌∷◌, codes, false, None, Some, true};
ghost use Rattle.pl_events.specs.declared.event.Answer.{Answer};
ghost use Rattle.pl_events.specs.declared.operation.Ask.{Ask};
ghost use Rattle.pl_decide.specs.declared.decision.Decision.{Decision};
ghost use Rattle.pl_model.specs.declared.work.Work.TheVariants.{Keep as to_keep, Post as to_post, Send as to_send};
ghost use Rattle.pl_model.specs.Due.{has_open, over_limit};
ghost use Rattle.pl_model.specs.Legal.{needs_fresh};
ghost use Rattle.pl_model.specs.Plan.{plan_by};
ghost use Rattle.pl_model_rows.specs.FirstCreate.{events as first_events};
ghost use Rattle.pl_model_rows.specs.SecondRun.{events, full_stack, odd_run, run};
ghost use Rattle.pl_model_rows.specs.Pieces.{a_urn, checks_inputs, checks_provider, compares, configures, configures_row, k_one, provider_entry, provider_urn, stack_urn, state_with};
ghost use Rattle.pl_model_rows.specs.Prefixes.{answer_at, ask_at, choices_of, decision_at, due_at, due_on_at, known_at, known_end, marks_of, state_at};

/// The states, each of which is the one at the start, and after which events they are saved.
pub fn states()
    ensures stack { state_at run events 2 ≡ run.base }
    ensures provider { state_at run events 9 ≡ run.base }
    ensures last { state_at run events 16 ≡ run.base }
    ensures saved { marks_of run events ≡ 2 ∷ 9 ∷ 14 ∷ [] }
    ensures without_number { needs_fresh (known_at run events 8) 1 ≡ false }
{}

/// What is chosen as the history goes on.
pub fn choices()
    ensures { choices_of run events
        ≡ None ∷ Some (to_keep 0) ∷ Some (to_post 1) ∷ None
        ∷ Some (to_send (checks_provider 1)) ∷ None ∷ Some (to_send (configures 1)) ∷ None
        ∷ Some (to_keep 1)
        ∷ Some (to_send (checks_inputs 2)) ∷ None ∷ Some (to_send (compares 2)) ∷ None
        ∷ Some (to_keep 2) ∷ Some (to_post 2) ∷ None ∷ None ∷ [] }
{}

/// What the provider is asked, and the host is answered. The provider's row wants no lane of its own.
pub fn asks()
    ensures config { ask_at run events 4 (checks_provider 1) ≡ Some (Ask.CheckConfig provider_urn [] (Some [])) }
    ensures check { ask_at run events 9 (checks_inputs 2) ≡ Some (Ask.Check a_urn k_one (Some k_one)) }
    ensures diff { ask_at run events 11 (compares 2) ≡ Some (Ask.Diff a_urn (codes "a-1") k_one k_one k_one) }
    ensures answer { answer_at run events 14 2 ≡ Answer.Registered a_urn (Some (codes "a-1")) k_one }
    ensures goals_lane { due_on_at run events 6 (configures 1) 0 ≡ true }
    ensures rows_lane { due_on_at run events 6 (configures_row 1) 1 ≡ false }
{}

/// Over other rows: a keep leaves all else as it is, and a provider's id that no reference can name is made anew.
pub fn over_odd_rows()
    ensures with_number { needs_fresh (known_at odd_run first_events 8) 1 ≡ true }
    ensures at_first { state_at odd_run first_events 2 ≡ odd_run.base }
    ensures state { state_at odd_run first_events 9 ≡ state_with (full_stack ∷ provider_entry ∷ []) [] }
    ensures stack_kept { decision_at odd_run first_events 2 0 ≡ Some Decision.Keep }
{}

/// How it ends.
pub fn end()
    ensures planned { plan_by (known_end run events)
        ≡ (stack_urn, codes "same") ∷ (provider_urn, codes "same") ∷ (a_urn, codes "same") ∷ [] }
    ensures no_problem { (known_end run events).problems ≡ [] }
    ensures closed { has_open (known_end run events) ≡ false }
    ensures nothing_due { due_at run events 16 ≡ [] }
    ensures nothing_over { over_limit (known_end run events) ≡ [] }
{}
