//! What a preview plans is what is done; and what it does of what is not known.

ghost use Rattle.std.specs.Prelude.{◌≡◌, [], ◌∷◌, codes, false, None, Some, true};
ghost use Rattle.pl_events.specs.declared.event.Answer.{Answer};
ghost use Rattle.pl_decide.specs.declared.problem.Problem.{Problem};
ghost use Rattle.pl_model.specs.declared.work.Work.TheVariants.{Keep as to_keep, Post as to_post, Send as to_send};
ghost use Rattle.pl_model.specs.Due.{is_asked, is_due, is_post_due};
ghost use Rattle.pl_model.specs.Plan.{plan_by};
ghost use Rattle.pl_model.specs.declared.mode.Mode.TheVariants.{Preview, Up};
ghost use Rattle.pl_model_rows.specs.CreateFirst.{b_entry};
ghost use Rattle.pl_model_rows.specs.Pieces.{a_urn, b_urn, checks_inputs, checks_provider, configures, invokes, k_one, provider_entry, provider_urn, stack_entry, stack_urn, state_with, thing};
ghost use Rattle.pl_model_rows.specs.Prefixes.{answer_at, choices_from, due_at, due_on_at, known_at, known_end, marks_of, operations_begun, state_at};
ghost use Rattle.pl_model_rows.specs.Previewed.{halted, made, previewed, run_of, unknown};

/// The plans.
pub fn plans()
    ensures same { plan_by (known_end (run_of Preview) previewed) ≡ plan_by (known_end (run_of Up) made) }
    ensures planned { plan_by (known_end (run_of Preview) previewed)
        ≡ (stack_urn, codes "create") ∷ (provider_urn, codes "create") ∷ (a_urn, codes "create") ∷ (b_urn, codes "create") ∷ [] }
{}

/// The preview: things are checked and kept, nothing is saved, and the answers have the checked inputs as outputs.
pub fn preview()
    ensures chosen { choices_from (run_of Preview) previewed 9
        ≡ Some (to_send (checks_inputs 2)) ∷ None ∷ Some (to_keep 2) ∷ Some (to_post 2) ∷ None
        ∷ Some (to_send (checks_inputs 3)) ∷ None ∷ Some (to_keep 3) ∷ Some (to_post 3) ∷ None ∷ None ∷ [] }
    ensures begun { operations_begun previewed ≡ checks_provider 1 ∷ configures 1 ∷ checks_inputs 2 ∷ checks_inputs 3 ∷ [] }
    ensures answer { answer_at (run_of Preview) previewed 12 2 ≡ Answer.Registered a_urn None k_one }
    ensures saved { marks_of (run_of Preview) previewed ≡ [] }
    ensures no_problem { (known_end (run_of Preview) previewed).problems ≡ [] }
{}

/// What the program then makes.
pub fn made_things()
    ensures state { state_at (run_of Up) made 21
        ≡ state_with (stack_entry ∷ provider_entry ∷ thing (codes "a") (codes "a-1") k_one ∷ b_entry ∷ []) [] }
    ensures saved { marks_of (run_of Up) made ≡ 2 ∷ 9 ∷ 12 ∷ 13 ∷ 18 ∷ 19 ∷ [] }
    ensures no_problem { (known_end (run_of Up) made).problems ≡ [] }
{}

/// A provider whose inputs are not known is kept without being configured in a preview, and an invoke of it is answered unsent.
pub fn unknown_provider()
    ensures kept { is_due (known_at (run_of Preview) unknown 3) (to_keep 0) ≡ true }
    ensures unconfigured { due_on_at (run_of Preview) unknown 3 (configures 0) 0 ≡ false }
    ensures configured { due_at (run_of Up) unknown 3 ≡ to_send (configures 0) ∷ [] }
    ensures answered { is_post_due (known_at (run_of Preview) unknown 6) 2 ≡ true }
    ensures unsent { is_asked (known_at (run_of Preview) unknown 6) (invokes 2) ≡ false }
    ensures answer { answer_at (run_of Preview) unknown 6 2 ≡ Answer.Result [] }
{}

/// After a problem an invoke is halted, also one that would be answered unsent: it waits until nothing is out.
pub fn halted_invoke()
    ensures told { (known_end (run_of Preview) halted).problems ≡ (5, Problem.DuplicateUrn stack_urn) ∷ [] }
    ensures waits { due_at (run_of Preview) halted 7 ≡ to_post 3 ∷ [] }
    ensures then_due { due_at (run_of Preview) halted 8 ≡ to_post 2 ∷ to_post 3 ∷ to_post 4 ∷ [] }
    ensures answer { answer_at (run_of Preview) halted 8 4 ≡ Answer.Refused (codes "halted") }
{}
