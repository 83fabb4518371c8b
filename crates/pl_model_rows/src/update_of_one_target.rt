//! Of two things that have changed the one is updated that may be; the other is left as it was.

ghost use Rattle.std.specs.Prelude.{◌≡◌, [], ◌∷◌, codes, Some};
ghost use Rattle.pl_events.specs.declared.operation.Ask.{Ask};
ghost use Rattle.pl_decide.specs.declared.decision.Decision.{Decision};
ghost use Rattle.pl_model.specs.Plan.{plan_by};
ghost use Rattle.pl_model_rows.specs.OneTarget.{a_with, b_entry, events, run};
ghost use Rattle.pl_model_rows.specs.Pieces.{a_urn, b_urn, checks_inputs, checks_provider, compares, configures, k_at, k_one, provider_entry, provider_urn, stack_entry, stack_urn, state_with, updates, updating};
ghost use Rattle.pl_model_rows.specs.Prefixes.{ask_at, decision_at, due_at, known_end, marks_of, operations_begun, state_at};

/// What the provider is asked: the second thing is checked with the inputs that it has.
pub fn asks()
    ensures check { ask_at run events 9 (checks_inputs 2) ≡ Some (Ask.Check a_urn (k_at 2) (Some k_one)) }
    ensures update { ask_at run events 13 (updates 2) ≡ Some (Ask.Update a_urn (codes "a-1") k_one k_one (k_at 2)) }
    ensures other_check { ask_at run events 17 (checks_inputs 3) ≡ Some (Ask.Check b_urn k_one (Some k_one)) }
    ensures begun { operations_begun events
        ≡ checks_provider 1 ∷ configures 1 ∷ checks_inputs 2 ∷ compares 2 ∷ updates 2 ∷ checks_inputs 3 ∷ compares 3 ∷ [] }
{}

/// The states, and after which events they are saved: the update waits with the new inputs and the old outputs.
pub fn states()
    ensures updating { (state_at run events 14).pending ≡ updating (record (a_with 2) { outputs = k_one }) ∷ [] }
    ensures updated { state_at run events 15 ≡ state_with (stack_entry ∷ provider_entry ∷ a_with 2 ∷ b_entry ∷ []) [] }
    ensures last { state_at run events 24 ≡ state_with (stack_entry ∷ provider_entry ∷ a_with 2 ∷ b_entry ∷ []) [] }
    ensures saved { marks_of run events ≡ 2 ∷ 9 ∷ 14 ∷ 15 ∷ 22 ∷ [] }
{}

/// What is decided, and how it ends.
pub fn end()
    ensures updated { decision_at run events 13 2 ≡ Some Decision.Update }
    ensures kept { decision_at run events 21 3 ≡ Some Decision.Keep }
    ensures planned { plan_by (known_end run events)
        ≡ (stack_urn, codes "same") ∷ (provider_urn, codes "same") ∷ (a_urn, codes "update") ∷ (b_urn, codes "same") ∷ [] }
    ensures no_problem { (known_end run events).problems ≡ [] }
    ensures nothing_due { due_at run events 24 ≡ [] }
{}
