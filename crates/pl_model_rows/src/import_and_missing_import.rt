//! A thing is imported by its id; and one that is not there.

ghost use Rattle.std.specs.Prelude.{◌≡◌, [], ◌∷◌, codes, None, Some};
ghost use Rattle.pl_events.specs.declared.event.Answer.{Answer};
ghost use Rattle.pl_events.specs.declared.operation.Ask.{Ask};
ghost use Rattle.pl_decide.specs.declared.decision.Decision.{Decision};
ghost use Rattle.pl_decide.specs.declared.problem.Problem.{Problem};
ghost use Rattle.pl_model.specs.declared.work.Work.TheVariants.{Post as to_post};
ghost use Rattle.pl_model.specs.Due.{count_of, over_limit};
ghost use Rattle.pl_model.specs.Plan.{plan_by};
ghost use Rattle.pl_model_rows.specs.Imported.{a_entry, events, missing, run};
ghost use Rattle.pl_model_rows.specs.Pieces.{a_urn, k_one, provider_entry, provider_urn, stack_entry, stack_urn, state_with};
ghost use Rattle.pl_model_rows.specs.Prefixes.{answer_at, asks_of, decision_at, due_at, known_at, known_end, marks_of, state_at};

/// What the provider is asked, and what is decided.
pub fn asks()
    ensures asked { asks_of run events
        ≡ Ask.CheckConfig provider_urn [] None ∷ Ask.Configure [] ∷ Ask.Check a_urn k_one None ∷ Ask.Read a_urn (codes "a-9") k_one [] ∷ [] }
    ensures decided { decision_at run events 11 2 ≡ Some Decision.Import }
    ensures counted { count_of (known_at run events 12) ≡ 3 }
{}

/// The states: nothing is pending while it is read, and it is recorded as it was found.
pub fn states()
    ensures reading { state_at run events 12 ≡ state_with (stack_entry ∷ provider_entry ∷ []) [] }
    ensures found { state_at run events 13 ≡ state_with (stack_entry ∷ provider_entry ∷ a_entry ∷ []) [] }
    ensures saved { marks_of run events ≡ 2 ∷ 9 ∷ 13 ∷ [] }
    ensures answer { answer_at run events 13 2 ≡ Answer.Registered a_urn (Some (codes "a-9")) k_one }
{}

/// The same where there is no such thing.
pub fn missing_thing()
    ensures told { (known_end run missing).problems ≡ (12, Problem.ImportMissing a_urn) ∷ [] }
    ensures state { state_at run missing 13 ≡ state_with (stack_entry ∷ provider_entry ∷ []) [] }
    ensures saved { marks_of run missing ≡ 2 ∷ 9 ∷ [] }
    ensures due { due_at run missing 13 ≡ to_post 2 ∷ [] }
{}

/// How it ends.
pub fn end()
    ensures planned { plan_by (known_end run events)
        ≡ (stack_urn, codes "create") ∷ (provider_urn, codes "create") ∷ (a_urn, codes "import") ∷ [] }
    ensures no_problem { (known_end run events).problems ≡ [] }
    ensures nothing_due { due_at run events 15 ≡ [] }
    ensures nothing_over { over_limit (known_end run events) ≡ [] }
{}
