//! Two things are created at once, on a lane each; an invoke takes the lane that is free first.

ghost use Rattle.std.specs.Prelude.{◌≡◌, [], ◌∷◌, codes, false, Some, true};
ghost use Rattle.pl_events.specs.declared.event.Answer.{Answer};
ghost use Rattle.pl_events.specs.declared.operation.Ask.{Ask};
ghost use Rattle.pl_model.specs.declared.work.Work.TheVariants.{Post as to_post, Send as to_send};
ghost use Rattle.pl_model.specs.Due.{has_open};
ghost use Rattle.pl_model_rows.specs.FirstCreate.{a_creating, a_entry};
ghost use Rattle.pl_model_rows.specs.Pieces.{configures, invokes, k_at, provider_entry, stack_entry, state_with};
ghost use Rattle.pl_model_rows.specs.Prefixes.{answer_at, ask_at, due_at, due_on_at, known_end, marks_of, state_at};
ghost use Rattle.pl_model_rows.specs.TwoLanes.{b_creating, b_entry, both_sent, events, run};

/// A second lane is wanted once the first one is out and there is work for it, and no third one.
pub fn lanes()
    ensures no_work { due_at run both_sent 12 ≡ [] }
    ensures second { due_at run both_sent 13 ≡ to_send (configures 1) ∷ [] }
    ensures on_next { due_on_at run both_sent 13 (configures 1) 1 ≡ true }
    ensures not_on_first { due_on_at run both_sent 13 (configures 1) 0 ≡ false }
    ensures one_alone { due_at (record run { parallel = 1 }) both_sent 13 ≡ [] }
    ensures no_third { due_at run events 19 ≡ [] }
    ensures free_one { due_on_at run events 20 (invokes 4) 1 ≡ true }
    ensures busy_one { due_on_at run events 20 (invokes 4) 0 ≡ false }
{}

/// The states: both creations wait for their replies, and what is made first stands first.
pub fn states()
    ensures both { state_at run both_sent 18 ≡ state_with (stack_entry ∷ provider_entry ∷ []) (a_creating ∷ b_creating ∷ []) }
    ensures second { state_at run events 20 ≡ state_with (stack_entry ∷ provider_entry ∷ b_entry ∷ []) (a_creating ∷ []) }
    ensures last { state_at run events 27 ≡ state_with (stack_entry ∷ provider_entry ∷ b_entry ∷ a_entry ∷ []) [] }
    ensures saved { marks_of run events ≡ 2 ∷ 9 ∷ 12 ∷ 18 ∷ 20 ∷ 23 ∷ [] }
{}

/// What is asked and answered of the invoke, which changes nothing.
pub fn invoke()
    ensures asked { ask_at run events 21 (invokes 4) ≡ Some (Ask.Invoke (codes "toy:index:find") (k_at 2)) }
    ensures not_yet { due_at run events 24 ≡ [] }
    ensures due { due_at run events 25 ≡ to_post 4 ∷ [] }
    ensures answer { answer_at run events 25 4 ≡ Answer.Result (k_at 3) }
{}

/// How it ends.
pub fn end()
    ensures no_problem { (known_end run events).problems ≡ [] }
    ensures closed { has_open (known_end run events) ≡ false }
    ensures nothing_due { due_at run events 27 ≡ [] }
{}
