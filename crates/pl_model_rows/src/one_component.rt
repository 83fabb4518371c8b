//! A stack and one component below it, over nothing.

ghost use Rattle.std.specs.Prelude.{◌≡◌, [], ◌∷◌, codes, false, None, Some};
ghost use Rattle.pl_events.specs.declared.event.Answer.{Answer};
ghost use Rattle.pl_events.specs.declared.event.Request.{Request};
ghost use Rattle.pl_decide.specs.declared.problem.Problem.{Problem};
ghost use Rattle.pl_model.specs.declared.heard.Fate.TheVariants.{Accepted as accepted, Refused as refused};
ghost use Rattle.pl_model.specs.declared.work.Work.TheVariants.{Keep as to_keep, Post as to_post};
ghost use Rattle.pl_model.specs.Due.{has_open, over_limit};
ghost use Rattle.pl_model.specs.Plan.{plan_by};
ghost use Rattle.pl_model.specs.Requests.{fate_of};
ghost use Rattle.pl_model_rows.specs.OneComponent.{events, run, site_entry, site_told, site_urn, with_outputs};
ghost use Rattle.pl_model_rows.specs.Pieces.{k_one, stack_entry, stack_urn, state_with};
ghost use Rattle.pl_model_rows.specs.Prefixes.{answer_at, choices_of, due_at, known_at, known_end, marks_of, state_at};

/// The states, and after which events they are saved.
pub fn states()
    ensures first { state_at run events 2 ≡ state_with (stack_entry ∷ []) [] }
    ensures last { state_at run events 7 ≡ state_with (stack_entry ∷ site_entry ∷ []) [] }
    ensures saved { marks_of run events ≡ 2 ∷ 5 ∷ [] }
    ensures planned { plan_by (known_end run events) ≡ (stack_urn, codes "create") ∷ (site_urn, codes "create") ∷ [] }
{}

/// What is chosen as the history goes on.
pub fn choices()
    ensures { choices_of run events
        ≡ None ∷ Some (to_keep 0) ∷ Some (to_post 1) ∷ None ∷ Some (to_keep 1) ∷ Some (to_post 2) ∷ None ∷ None ∷ [] }
{}

/// What the host is answered.
pub fn answers()
    ensures stack { answer_at run events 2 1 ≡ Answer.Registered stack_urn None [] }
    ensures site { answer_at run events 5 2 ≡ Answer.Registered site_urn None [] }
    ensures early { answer_at run events 4 2 ≡ Answer.Refused (codes "halted") }
{}

/// What is refused: what stands already, and what is below nothing.
pub fn refusals()
    ensures twice { fate_of (known_at run events 6) (Request.Register 3 site_told) ≡ refused (Problem.DuplicateUrn site_urn) }
    ensures below_nothing { fate_of (known_at run events 0) (Request.Register 1 site_told) ≡ refused (Problem.UnknownReference stack_urn) }
    ensures accepts { fate_of (known_at run events 3) (Request.Register 2 site_told) ≡ accepted }
{}

/// Outputs that are told of a component that stands: they are saved with it, and its own answer stays without them.
pub fn outputs()
    ensures state { state_at run with_outputs 7 ≡ state_with (stack_entry ∷ record site_entry { outputs = k_one } ∷ []) [] }
    ensures saved { marks_of run with_outputs ≡ 2 ∷ 5 ∷ 7 ∷ [] }
    ensures due { due_at run with_outputs 7 ≡ to_post 3 ∷ [] }
    ensures noted { answer_at run with_outputs 7 3 ≡ Answer.Noted }
    ensures without { answer_at run with_outputs 7 2 ≡ Answer.Registered site_urn None [] }
{}

/// How it ends.
pub fn end()
    ensures no_problem { (known_end run events).problems ≡ [] }
    ensures closed { has_open (known_end run events) ≡ false }
    ensures nothing_due { due_at run events 7 ≡ [] }
    ensures nothing_over { over_limit (known_end run events) ≡ [] }
{}
