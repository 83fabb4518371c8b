//! A thing is replaced, the old one deleted first; the next run makes what one that ended halfway did not.

ghost use Rattle.std.specs.Prelude.{◌≡◌, [], ◌∷◌, codes, None, Some};
ghost use Rattle.pl_events.specs.declared.operation.Ask.{Ask};
ghost use Rattle.pl_decide.specs.declared.decision.Decision.{Decision};
ghost use Rattle.pl_model.specs.declared.work.Work.TheVariants.{Post as to_post, Send as to_send};
ghost use Rattle.pl_model.specs.Plan.{plan_by};
ghost use Rattle.pl_model_rows.specs.CreateFirst.{new_a, old_a};
ghost use Rattle.pl_model_rows.specs.Pieces.{a_urn, checks_inputs, compares, creates, creating, deletes, deleting, fixed_at, new_thing, provider_entry, provider_urn, stack_entry, stack_urn, state_with};
ghost use Rattle.pl_model_rows.specs.Prefixes.{asks_of, choices_from, decision_at, due_at, known_end, marks_of, state_at};
ghost use Rattle.pl_model_rows.specs.Resumed.{events, halfway, resumed, resuming, run};

/// The states, and after which events they are saved: between the two the row stays, with its replacement pending.
pub fn states()
    ensures deleting { state_at run events 14 ≡ state_with (stack_entry ∷ provider_entry ∷ old_a ∷ []) (deleting old_a ∷ []) }
    ensures deleted { state_at run events 15 ≡ state_with halfway [] }
    ensures creating { state_at run events 16 ≡ state_with halfway (creating (new_thing (codes "a") (fixed_at 2)) ∷ []) }
    ensures made { state_at run events 17 ≡ state_with (stack_entry ∷ provider_entry ∷ new_a ∷ []) [] }
    ensures saved { marks_of run events ≡ 2 ∷ 9 ∷ 14 ∷ 15 ∷ 16 ∷ 17 ∷ [] }
{}

/// What is chosen from the first check of the thing on.
pub fn choices()
    ensures { choices_from run events 9
        ≡ Some (to_send (checks_inputs 2)) ∷ None ∷ Some (to_send (compares 2)) ∷ None
        ∷ Some (to_send (deletes 2)) ∷ None ∷ Some (to_send (creates 2)) ∷ None ∷ Some (to_post 2) ∷ None ∷ None ∷ [] }
{}

/// The next run: the thing is checked without old inputs, compared with nothing, and created.
pub fn resumed_run()
    ensures asked { asks_of resumed resuming
        ≡ Ask.CheckConfig provider_urn [] (Some []) ∷ Ask.Configure [] ∷ Ask.Check a_urn (fixed_at 2) None ∷ Ask.Create a_urn (fixed_at 2) ∷ [] }
    ensures decided { decision_at resumed resuming 11 2 ≡ Some Decision.Create }
    ensures saved { marks_of resumed resuming ≡ 2 ∷ 9 ∷ 12 ∷ 13 ∷ [] }
    ensures last { state_at resumed resuming 15 ≡ state_with (stack_entry ∷ provider_entry ∷ new_a ∷ []) [] }
    ensures planned { plan_by (known_end resumed resuming)
        ≡ (stack_urn, codes "same") ∷ (provider_urn, codes "same") ∷ (a_urn, codes "create-replacement") ∷ [] }
    ensures nothing_due { due_at resumed resuming 15 ≡ [] }
{}

/// How the first run ends.
pub fn end()
    ensures planned { plan_by (known_end run events)
        ≡ (stack_urn, codes "same") ∷ (provider_urn, codes "same") ∷ (a_urn, codes "create-replacement") ∷ (a_urn, codes "delete-replaced") ∷ [] }
    ensures no_problem { (known_end run events).problems ≡ [] }
    ensures nothing_due { due_at run events 19 ≡ [] }
{}
