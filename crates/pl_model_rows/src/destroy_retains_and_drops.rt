//! Everything is deleted; one of the things is retained.

ghost use Rattle.std.specs.Prelude.{◌≡◌, [], ◌∷◌, codes, false, None, Some, true};
ghost use Rattle.pl_events.specs.declared.operation.Ask.{Ask};
ghost use Rattle.pl_decide.specs.declared.problem.Problem.{Problem};
ghost use Rattle.pl_model.specs.declared.work.Work.TheVariants.{Drop as to_drop, Send as to_send};
ghost use Rattle.pl_model.specs.Due.{has_open, over_limit};
ghost use Rattle.pl_model.specs.Plan.{plan_by};
ghost use Rattle.pl_model_rows.specs.Destroyed.{events, half_made, hindered, run, x_deleting};
ghost use Rattle.pl_model_rows.specs.Pieces.{configures_row, deletes, k_one, provider_entry, provider_urn, stack_entry, stack_urn, state_with, thing_urn};
ghost use Rattle.pl_model_rows.specs.Prefixes.{ask_at, choices_of, due_at, due_on_at, known_at, known_end, marks_of, state_at};

/// The states, and after which events they are saved.
pub fn states()
    ensures dropped { state_at run events 1 ≡ state_with (stack_entry ∷ provider_entry ∷ half_made ∷ []) [] }
    ensures deleting { state_at run events 4 ≡ state_with (stack_entry ∷ provider_entry ∷ half_made ∷ []) (x_deleting ∷ []) }
    ensures deleted { state_at run events 5 ≡ state_with (stack_entry ∷ provider_entry ∷ []) [] }
    ensures last { state_at run events 7 ≡ state_with [] [] }
    ensures saved { marks_of run events ≡ 1 ∷ 4 ∷ 5 ∷ 6 ∷ 7 ∷ [] }
{}

/// What is due as the history goes on: a row goes only after those that refer to it, and the provider after its things.
pub fn due()
    ensures chosen { choices_of run events
        ≡ Some (to_drop 2) ∷ Some (to_send (configures_row 1)) ∷ None ∷ Some (to_send (deletes 3)) ∷ None
        ∷ Some (to_drop 1) ∷ Some (to_drop 0) ∷ None ∷ [] }
    ensures at_first { due_at run events 0 ≡ to_drop 2 ∷ to_send (configures_row 1) ∷ [] }
    ensures then_one { due_at run events 3 ≡ to_send (deletes 3) ∷ [] }
    ensures at_last { due_at run events 6 ≡ to_drop 0 ∷ [] }
    ensures delete_asked { ask_at run events 3 (deletes 3) ≡ Some (Ask.Delete (thing_urn (codes "x")) (codes "x-1") k_one k_one) }
    ensures lane { due_on_at run events 1 (configures_row 1) 0 ≡ true }
    ensures other_lane { due_on_at run events 1 (configures_row 1) 1 ≡ false }
{}

/// What hinders it from the start: the first protected row, and then the row that has no provider.
pub fn hindrances()
    ensures told { (known_at hindered [] 0).problems
        ≡ (0, Problem.Protected (thing_urn (codes "k"))) ∷ (0, Problem.MissingProvider (thing_urn (codes "x"))) ∷ [] }
    ensures nothing_due { due_at hindered [] 0 ≡ [] }
{}

/// How it ends.
pub fn end()
    ensures planned { plan_by (known_end run events)
        ≡ (thing_urn (codes "x"), codes "delete") ∷ (thing_urn (codes "k"), codes "delete") ∷ (provider_urn, codes "delete")
        ∷ (stack_urn, codes "delete") ∷ [] }
    ensures no_problem { (known_end run events).problems ≡ [] }
    ensures closed { has_open (known_end run events) ≡ false }
    ensures nothing_due { due_at run events 7 ≡ [] }
    ensures nothing_over { over_limit (known_end run events) ≡ [] }
{}
