//! Everything is read anew; two of three things are gone.

ghost use Rattle.std.specs.Prelude.{◌≡◌, ◌++◌, [], ◌∷◌, codes, false, None, Some, true};
ghost use Rattle.pl_events.specs.declared.operation.Ask.{Ask};
ghost use Rattle.pl_decide.specs.declared.problem.Problem.{Problem};
ghost use Rattle.pl_model.specs.declared.work.Work.TheVariants.{Clear as to_clear, Send as to_send};
ghost use Rattle.pl_model.specs.Due.{has_open, over_limit};
ghost use Rattle.pl_model_rows.specs.Pieces.{a_urn, b_urn, configures_row, first_id, k_one, provider_entry, provider_urn, reads, reads_pending, stack_entry, state_with, thing, thing_urn};
ghost use Rattle.pl_model_rows.specs.Prefixes.{ask_at, choices_of, due_at, known_at, known_end, marks_of, state_at};
ghost use Rattle.pl_model_rows.specs.ReadAnew.{a_entry, b_entry, b_left, c_deleting, clearing, d_creating, d_urn, events, hindered, imported, importing, not_imported, run, run_with};

/// The states: what is gone is taken out, and what is left refers to nothing that is not there.
pub fn states()
    ensures c_gone { state_at run events 4 ≡ state_with (stack_entry ∷ provider_entry ∷ a_entry ∷ b_entry ∷ []) (c_deleting ∷ d_creating ∷ []) }
    ensures cleared { state_at run events 5 ≡ state_with (stack_entry ∷ provider_entry ∷ a_entry ∷ b_entry ∷ []) (d_creating ∷ []) }
    ensures b_found { state_at run events 7 ≡ state_with (stack_entry ∷ provider_entry ∷ a_entry ∷ b_entry ∷ []) (d_creating ∷ []) }
    ensures last { state_at run events 9 ≡ state_with (stack_entry ∷ provider_entry ∷ b_left ∷ []) (d_creating ∷ []) }
    ensures saved { marks_of run events ≡ 4 ∷ 5 ∷ 7 ∷ 9 ∷ [] }
{}

/// What is due as the history goes on: the deletion is closed once its row was read.
pub fn due()
    ensures chosen { choices_of run events
        ≡ Some (to_send (configures_row 1)) ∷ None ∷ Some (to_send (reads 4)) ∷ None ∷ Some (to_clear 0)
        ∷ Some (to_send (reads 3)) ∷ None ∷ Some (to_send (reads 2)) ∷ None ∷ None ∷ [] }
    ensures rows { due_at run events 2 ≡ to_send (reads 4) ∷ to_send (reads 3) ∷ to_send (reads 2) ∷ [] }
    ensures clear { due_at run events 4 ≡ to_clear 0 ∷ to_send (reads 3) ∷ to_send (reads 2) ∷ [] }
    ensures read_asked { ask_at run events 5 (reads 3) ≡ Some (Ask.Read b_urn (codes "b-1") k_one k_one) }
{}

/// The same where pending creations are let go.
pub fn clearing_creates()
    ensures at_first { due_at (run_with true) clearing 0 ≡ to_clear 1 ∷ to_send (configures_row 1) ∷ [] }
    ensures cleared { (state_at (run_with true) clearing 1).pending ≡ c_deleting ∷ [] }
    ensures last { state_at (run_with true) clearing 10 ≡ state_with (stack_entry ∷ provider_entry ∷ b_left ∷ []) [] }
    ensures saved { marks_of (run_with true) clearing ≡ 1 ∷ 5 ∷ 6 ∷ 8 ∷ 10 ∷ [] }
    ensures nothing_due { due_at (run_with true) clearing 10 ≡ [] }
{}

/// A pending creation that is imported is read and not let go; a thing that is not there is a problem.
pub fn importing_a_create()
    ensures at_first { due_at importing imported 0 ≡ to_send (configures_row 1) ∷ [] }
    ensures then_read { due_at importing imported 2 ≡ to_send (reads_pending 0) ∷ [] }
    ensures read_asked { ask_at importing imported 2 (reads_pending 0) ≡ Some (Ask.Read d_urn (codes "d-1") k_one []) }
    ensures last { state_at importing imported 4 ≡ state_with (stack_entry ∷ provider_entry ∷ thing (codes "d") (codes "d-1") k_one ∷ []) [] }
    ensures saved { marks_of importing imported ≡ 4 ∷ [] }
    ensures missing { (known_end importing not_imported).problems ≡ (3, Problem.ImportMissing d_urn) ∷ [] }
    ensures still_pending { state_at importing not_imported 4 ≡ importing.base }
{}

/// What hinders it from the start.
pub fn hindrances()
    ensures told { (known_at hindered [] 0).problems
        ≡ (0, Problem.NoPendingCreate (thing_urn (codes "z"))) ∷ (0, Problem.MissingProvider a_urn)
        ∷ (0, Problem.UnknownReference (provider_urn ++ codes "::" ++ first_id)) ∷ [] }
    ensures nothing_due { due_at hindered [] 0 ≡ [] }
{}

/// How it ends.
pub fn end()
    ensures no_problem { (known_end run events).problems ≡ [] }
    ensures closed { has_open (known_end run events) ≡ false }
    ensures nothing_due { due_at run events 9 ≡ [] }
    ensures nothing_over { over_limit (known_end run events) ≡ [] }
{}
