//! Everything is deleted; what a thing would go along with is retained.

ghost use Rattle.std.specs.Prelude.{◌≡◌, [], ◌∷◌, codes, None, Some};
ghost use Rattle.pl_events.specs.declared.operation.Ask.{Ask};
ghost use Rattle.pl_model.specs.declared.work.Work.TheVariants.{Drop as to_drop, Send as to_send};
ghost use Rattle.pl_model_rows.specs.Pieces.{configures_row, deletes, k_one, provider_entry, stack_entry, state_with, thing_urn};
ghost use Rattle.pl_model_rows.specs.Prefixes.{asks_of, choices_of, known_end, marks_of, state_at};
ghost use Rattle.pl_model_rows.specs.RetainedDeleter.{events, run, x_retained};

/// The states, and after which events they are saved.
pub fn states()
    ensures deleted { state_at run events 4 ≡ state_with (stack_entry ∷ provider_entry ∷ x_retained ∷ []) [] }
    ensures last { state_at run events 7 ≡ state_with [] [] }
    ensures saved { marks_of run events ≡ 3 ∷ 4 ∷ 5 ∷ 6 ∷ 7 ∷ [] }
{}

/// What is chosen, and all that the provider is asked.
pub fn choices()
    ensures chosen { choices_of run events
        ≡ Some (to_send (configures_row 1)) ∷ None ∷ Some (to_send (deletes 3)) ∷ None
        ∷ Some (to_drop 2) ∷ Some (to_drop 1) ∷ Some (to_drop 0) ∷ None ∷ [] }
    ensures asked { asks_of run events ≡ Ask.Configure [] ∷ Ask.Delete (thing_urn (codes "y")) (codes "y-1") k_one k_one ∷ [] }
    ensures no_problem { (known_end run events).problems ≡ [] }
{}
