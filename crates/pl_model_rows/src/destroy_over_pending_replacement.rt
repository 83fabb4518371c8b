//! Everything is deleted where a replacement is pending: the thing is gone already.

ghost use Rattle.std.specs.Prelude.{◌≡◌, [], ◌∷◌, None, Some};
ghost use Rattle.pl_model.specs.declared.work.Work.TheVariants.{Drop as to_drop};
ghost use Rattle.pl_model_rows.specs.DestroyedHalfway.{events, leaving, read_anew, run, without_thing};
ghost use Rattle.pl_model_rows.specs.Pieces.{stack_entry, state_with};
ghost use Rattle.pl_model_rows.specs.Prefixes.{asks_of, choices_of, due_at, known_end, marks_of, state_at};

/// All of it is dropped, and no lane is started.
pub fn drops()
    ensures chosen { choices_of run events ≡ Some (to_drop 2) ∷ Some (to_drop 1) ∷ Some (to_drop 0) ∷ None ∷ [] }
    ensures asked { asks_of run events ≡ [] }
    ensures saved { marks_of run events ≡ 1 ∷ 2 ∷ 3 ∷ [] }
    ensures last { state_at run events 3 ≡ state_with [] [] }
    ensures no_problem { (known_end run events).problems ≡ [] }
{}

/// Nor is one started where the state is read anew, or where the program has the thing no more.
pub fn otherwise()
    ensures nothing_read { due_at read_anew [] 0 ≡ [] }
    ensures dropped { due_at without_thing leaving 4 ≡ to_drop 2 ∷ [] }
    ensures last { state_at without_thing leaving 6 ≡ state_with (stack_entry ∷ []) [] }
{}
