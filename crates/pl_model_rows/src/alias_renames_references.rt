//! A thing on which a second one depends is registered under another name, with its old one as an alias.

ghost use Rattle.std.specs.Prelude.{◌≡◌, [], ◌∷◌, codes, false, None, Some};
ghost use Rattle.pl_events.specs.declared.event.Answer.{Answer};
ghost use Rattle.pl_events.specs.declared.operation.Ask.{Ask};
ghost use Rattle.pl_model.specs.declared.work.Work.TheVariants.{Keep as to_keep, Post as to_post, Send as to_send};
ghost use Rattle.pl_model.specs.Due.{has_open, over_limit};
ghost use Rattle.pl_model.specs.Entries.{turned_entry};
ghost use Rattle.pl_model.specs.Known.{claim_of};
ghost use Rattle.pl_model.specs.Plan.{plan_by};
ghost use Rattle.pl_model_rows.specs.Pieces.{a_urn, b_urn, checks_inputs, checks_provider, compares, configures, k_one, provider_urn, stack_urn, state_with};
ghost use Rattle.pl_model_rows.specs.Prefixes.{answer_at, ask_at, choices_of, due_at, known_at, known_end, marks_of, state_at};
ghost use Rattle.pl_model_rows.specs.Renamed.{all_on, entries, events, new_urn, renaming, run};

/// The states: once the renamed thing is kept, what is left refers to its new name.
pub fn states()
    ensures before { state_at run events 13 ≡ run.base }
    ensures kept { state_at run events 14 ≡ state_with entries [] }
    ensures last { state_at run events 23 ≡ state_with entries [] }
    ensures saved { marks_of run events ≡ 2 ∷ 9 ∷ 14 ∷ 21 ∷ [] }
    ensures everywhere { turned_entry (all_on a_urn) renaming ≡ all_on new_urn }
    ensures others { turned_entry (all_on b_urn) renaming ≡ all_on b_urn }
{}

/// What is chosen as the history goes on.
pub fn choices()
    ensures { choices_of run events
        ≡ None ∷ Some (to_keep 0) ∷ Some (to_post 1) ∷ None
        ∷ Some (to_send (checks_provider 1)) ∷ None ∷ Some (to_send (configures 1)) ∷ None
        ∷ Some (to_keep 1)
        ∷ Some (to_send (checks_inputs 2)) ∷ None ∷ Some (to_send (compares 2)) ∷ None
        ∷ Some (to_keep 2) ∷ Some (to_post 2) ∷ None
        ∷ Some (to_send (checks_inputs 3)) ∷ None ∷ Some (to_send (compares 3)) ∷ None
        ∷ Some (to_keep 3) ∷ Some (to_post 3) ∷ None ∷ None ∷ [] }
{}

/// What is claimed, what the provider is asked, and what the host is answered.
pub fn asks()
    ensures claim { claim_of (known_at run events 13) 2 ≡ Some 2 }
    ensures diff { ask_at run events 11 (compares 2) ≡ Some (Ask.Diff new_urn (codes "a-1") k_one k_one k_one) }
    ensures answer { answer_at run events 14 2 ≡ Answer.Registered new_urn (Some (codes "a-1")) k_one }
{}

/// How it ends.
pub fn end()
    ensures planned { plan_by (known_end run events)
        ≡ (stack_urn, codes "same") ∷ (provider_urn, codes "same") ∷ (new_urn, codes "same") ∷ (b_urn, codes "same") ∷ [] }
    ensures no_problem { (known_end run events).problems ≡ [] }
    ensures closed { has_open (known_end run events) ≡ false }
    ensures nothing_due { due_at run events 23 ≡ [] }
    ensures nothing_over { over_limit (known_end run events) ≡ [] }
{}
