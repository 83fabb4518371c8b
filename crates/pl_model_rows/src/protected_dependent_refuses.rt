//! A thing whose dependent is protected is not deleted to be made anew.

ghost use Rattle.std.specs.Prelude.{◌≡◌, [], ◌∷◌, codes, false, Some};
ghost use Rattle.pl_events.specs.declared.event.Answer.{Answer};
ghost use Rattle.pl_decide.specs.declared.decision.Decision.{Decision};
ghost use Rattle.pl_decide.specs.declared.problem.Problem.{Problem};
ghost use Rattle.pl_model.specs.declared.work.Work.TheVariants.{Post as to_post, Send as to_send};
ghost use Rattle.pl_model_rows.specs.Pieces.{b_urn, checks_inputs, checks_provider, compares, configures, deletes};
ghost use Rattle.pl_model_rows.specs.Prefixes.{answer_at, decision_at, due_at, known_end, marks_of, operations_begun, state_at};
ghost use Rattle.pl_model_rows.specs.ProtectedDependent.{events, run, unprotected};

/// What comes of it: the first thing is refused, by the URN of the second, and nothing has changed.
pub fn refusal()
    ensures decided { decision_at run events 13 2 ≡ Some (Decision.Refused (Problem.Protected b_urn)) }
    ensures told { (known_end run events).problems ≡ (12, Problem.Protected b_urn) ∷ [] }
    ensures due { due_at run events 13 ≡ to_post 2 ∷ [] }
    ensures answer { answer_at run events 13 2 ≡ Answer.Refused (codes "halted") }
    ensures state { state_at run events 14 ≡ run.base }
    ensures saved { marks_of run events ≡ 2 ∷ 9 ∷ [] }
    ensures nothing_due { due_at run events 14 ≡ [] }
{}

/// Nothing is sent that changes a thing.
pub fn operations()
    ensures { operations_begun events ≡ checks_provider 1 ∷ configures 1 ∷ checks_inputs 2 ∷ compares 2 ∷ [] }
{}

/// The same where the second thing is not protected: it is deleted first.
pub fn without_protection()
    ensures decided { decision_at unprotected events 13 2 ≡ Some (Decision.Replace false) }
    ensures due { due_at unprotected events 13 ≡ to_send (deletes 3) ∷ [] }
{}
