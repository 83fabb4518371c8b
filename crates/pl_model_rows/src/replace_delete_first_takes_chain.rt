//! A thing is replaced, the old one deleted first, and its chain before it, while a thing of the chain is updated.

ghost use Rattle.std.specs.Prelude.{◌≡◌, [], ◌∷◌, codes, false, None, Some};
ghost use Rattle.pl_events.specs.declared.operation.Ask.{Ask};
ghost use Rattle.pl_decide.specs.declared.decision.Decision.{Decision};
ghost use Rattle.pl_model.specs.declared.work.Work.TheVariants.{Post as to_post, Send as to_send};
ghost use Rattle.pl_model.specs.Plan.{plan_by};
ghost use Rattle.pl_model_rows.specs.CreateFirst.{new_a, old_a};
ghost use Rattle.pl_model_rows.specs.Pieces.{a_urn, b_urn, checks_inputs, creates, deletes, k_one, provider_entry, provider_urn, stack_entry, stack_urn, state_with, thing_urn};
ghost use Rattle.pl_model_rows.specs.Prefixes.{ask_at, decision_at, due_at, known_end, state_at};
ghost use Rattle.pl_model_rows.specs.Resumed.{pending_a};
ghost use Rattle.pl_model_rows.specs.TakesChain.{c_urn, checking, deciding, events, new_e, old_e, replacing, run, taking, thing_on, updating_e};

/// What is due as the chain is deleted: the thing itself waits for the update.
pub fn due()
    ensures decided { decision_at run deciding 21 3 ≡ Some (Decision.Replace false) }
    ensures last_first { due_at run taking 21 ≡ to_send (deletes 5) ∷ [] }
    ensures then_next { due_at run taking 23 ≡ to_send (deletes 4) ∷ [] }
    ensures then_first { due_at run taking 25 ≡ to_send (deletes 3) ∷ [] }
    ensures waits { due_at run taking 27 ≡ [] }
    ensures updated { due_at run replacing 28 ≡ to_post 2 ∷ to_send (deletes 2) ∷ [] }
    ensures deleted { due_at run replacing 31 ≡ to_send (creates 3) ∷ [] }
{}

/// The states: the updated thing stands before the old ones, and the replaced one stays until the new one is made.
pub fn states()
    ensures taken { state_at run replacing 27 ≡ state_with (stack_entry ∷ provider_entry ∷ old_a ∷ old_e ∷ []) (updating_e ∷ []) }
    ensures updated { state_at run replacing 28 ≡ state_with (stack_entry ∷ provider_entry ∷ new_e ∷ old_a ∷ []) [] }
    ensures deleted { state_at run replacing 31 ≡ state_with (stack_entry ∷ provider_entry ∷ new_e ∷ pending_a ∷ []) [] }
    ensures made { state_at run replacing 33 ≡ state_with (stack_entry ∷ provider_entry ∷ new_e ∷ new_a ∷ []) [] }
{}

/// What the chain took is decided without claims, and created anew in its order.
pub fn made_anew()
    ensures check { ask_at run checking 37 (checks_inputs 4) ≡ Some (Ask.Check b_urn k_one None) }
    ensures decided { decision_at run checking 43 6 ≡ Some Decision.Create }
    ensures due { due_at run checking 43 ≡ to_send (creates 4) ∷ [] }
    ensures then_next { due_at run events 45 ≡ to_post 4 ∷ to_send (creates 5) ∷ [] }
    ensures last { state_at run events 49 ≡ state_with (stack_entry ∷ provider_entry ∷ new_e ∷ new_a
        ∷ thing_on (codes "b") (codes "b-2") a_urn ∷ thing_on (codes "c") (codes "c-2") b_urn ∷ thing_on (codes "d") (codes "d-2") c_urn ∷ []) [] }
{}

/// The plan: what is created anew replaces what was deleted.
pub fn plan()
    ensures { plan_by (known_end run events)
        ≡ (stack_urn, codes "same") ∷ (provider_urn, codes "same") ∷ (thing_urn (codes "e"), codes "update")
        ∷ (a_urn, codes "create-replacement") ∷ (b_urn, codes "create-replacement") ∷ (c_urn, codes "create-replacement")
        ∷ (thing_urn (codes "d"), codes "create-replacement") ∷ (thing_urn (codes "d"), codes "delete-replaced") ∷ (c_urn, codes "delete-replaced")
        ∷ (b_urn, codes "delete-replaced") ∷ (a_urn, codes "delete-replaced") ∷ [] }
{}
