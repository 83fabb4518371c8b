//! Everything is deleted; one of the things goes along with another one.

ghost use Rattle.std.specs.Prelude.{◌≡◌, [], ◌∷◌, codes, None, Some, true};
ghost use Rattle.pl_events.specs.declared.operation.Ask.{Ask};
ghost use Rattle.pl_model.specs.declared.work.Work.TheVariants.{Drop as to_drop, Send as to_send};
ghost use Rattle.pl_model.specs.Plan.{plan_by};
ghost use Rattle.pl_model.specs.Rows.{is_sent};
ghost use Rattle.pl_model_rows.specs.GoesAlong.{events, of_y_alone, run, without_provider, x_entry, x_urn};
ghost use Rattle.pl_model_rows.specs.Pieces.{configures_row, deletes, k_one, provider_entry, provider_urn, stack_entry, stack_urn, state_with, thing_urn};
ghost use Rattle.pl_model_rows.specs.Prefixes.{asks_of, choices_of, due_at, known_at, known_end, marks_of, state_at};

/// The states, and after which events they are saved.
pub fn states()
    ensures dropped { state_at run events 1 ≡ state_with (stack_entry ∷ provider_entry ∷ x_entry ∷ []) [] }
    ensures last { state_at run events 7 ≡ state_with [] [] }
    ensures saved { marks_of run events ≡ 1 ∷ 4 ∷ 5 ∷ 6 ∷ 7 ∷ [] }
{}

/// What is chosen, and all that the provider is asked: nothing of what goes along.
pub fn choices()
    ensures chosen { choices_of run events
        ≡ Some (to_drop 3) ∷ Some (to_send (configures_row 1)) ∷ None ∷ Some (to_send (deletes 2)) ∷ None
        ∷ Some (to_drop 1) ∷ Some (to_drop 0) ∷ None ∷ [] }
    ensures asked { asks_of run events ≡ Ask.Configure [] ∷ Ask.Delete x_urn (codes "x-1") k_one k_one ∷ [] }
{}

/// Where the other one is not to be deleted, it is deleted by itself; what goes along needs no provider.
pub fn otherwise()
    ensures by_itself { is_sent (known_at of_y_alone [] 0) 3 ≡ true }
    ensures due { due_at of_y_alone [] 0 ≡ to_send (configures_row 1) ∷ [] }
    ensures no_provider { (known_at without_provider [] 0).problems ≡ [] }
    ensures still_dropped { due_at without_provider [] 0 ≡ to_drop 3 ∷ [] }
{}

/// How it ends.
pub fn end()
    ensures planned { plan_by (known_end run events)
        ≡ (thing_urn (codes "y"), codes "delete") ∷ (x_urn, codes "delete") ∷ (provider_urn, codes "delete") ∷ (stack_urn, codes "delete") ∷ [] }
    ensures no_problem { (known_end run events).problems ≡ [] }
    ensures nothing_due { due_at run events 7 ≡ [] }
{}
