//! The new name of one thing is the old name of another, which is deleted first: the one waits until the other is made,
//! and what referred to it refers to its new name.

ghost use Rattle.std.specs.Prelude.{◌≡◌, [], ◌∷◌, codes, None, Some};
ghost use Rattle.pl_decide.specs.declared.decision.Decision.{Decision};
ghost use Rattle.pl_decide.specs.declared.problem.Problem.{Problem};
ghost use Rattle.pl_model.specs.declared.work.Work.TheVariants.{Keep as to_keep, Post as to_post, Send as to_send};
ghost use Rattle.pl_model.specs.Plan.{plan_by};
ghost use Rattle.pl_model_rows.specs.AliasWaits.{c_urn, d_on, events, failing, halfway, new_a, new_c, old_b, resumed, resuming, run};
ghost use Rattle.pl_model_rows.specs.Pieces.{a_urn, b_urn, checks_inputs, compares, creates, deletes, provider_entry, provider_urn, stack_entry, stack_urn, state_with, thing_urn};
ghost use Rattle.pl_model_rows.specs.Prefixes.{choices_from, decision_at, due_at, known_end, marks_of, state_at};
ghost use Rattle.pl_model_rows.specs.Resumed.{pending_a};

/// The states: what is deleted keeps its name until it is made anew, and the third thing depends on what it depended on.
pub fn states()
    ensures held { (state_at run events 20).entries ≡ stack_entry ∷ provider_entry ∷ pending_a ∷ old_b ∷ d_on b_urn ∷ [] }
    ensures made { (state_at run events 22).entries ≡ stack_entry ∷ provider_entry ∷ new_c ∷ old_b ∷ d_on b_urn ∷ [] }
    ensures kept { state_at run events 24 ≡ state_with (stack_entry ∷ provider_entry ∷ new_c ∷ new_a ∷ d_on a_urn ∷ []) [] }
    ensures saved { marks_of run events ≡ 2 ∷ 9 ∷ 15 ∷ 16 ∷ 21 ∷ 22 ∷ 24 ∷ [] }
    ensures no_problem { (known_end run events).problems ≡ [] }
{}

/// What is due: the keep is decided and waits for the creation.
pub fn due()
    ensures decided { decision_at run events 20 3 ≡ Some Decision.Keep }
    ensures waits { due_at run events 20 ≡ to_send (creates 2) ∷ [] }
    ensures meanwhile { due_at run events 21 ≡ [] }
    ensures then_kept { due_at run events 22 ≡ to_post 2 ∷ to_keep 3 ∷ [] }
    ensures chosen { choices_from run events 13
        ≡ Some (to_send (deletes 2)) ∷ Some (to_send (deletes 2)) ∷ None
        ∷ Some (to_send (checks_inputs 3)) ∷ None ∷ Some (to_send (compares 3)) ∷ None
        ∷ Some (to_send (creates 2)) ∷ None ∷ Some (to_post 2) ∷ Some (to_keep 3) ∷ Some (to_post 3) ∷ None ∷ [] }
{}

/// The same where the creation fails: nobody took the name, and the next run deletes nothing and creates what is missing.
pub fn failed_create()
    ensures state { state_at run failing 22 ≡ state_with halfway [] }
    ensures told { (known_end run failing).problems ≡ (21, Problem.ErrorReply (codes "full")) ∷ [] }
    ensures created { decision_at resumed resuming 16 2 ≡ Some Decision.Create }
    ensures kept { decision_at resumed resuming 16 3 ≡ Some Decision.Keep }
    ensures due { due_at resumed resuming 16 ≡ to_send (creates 2) ∷ [] }
    ensures planned { plan_by (known_end resumed resuming)
        ≡ (stack_urn, codes "same") ∷ (provider_urn, codes "same") ∷ (c_urn, codes "create-replacement") ∷ (a_urn, codes "same")
        ∷ (thing_urn (codes "d"), codes "delete") ∷ [] }
{}
