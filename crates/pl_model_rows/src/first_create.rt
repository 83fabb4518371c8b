//! A stack and one thing below it, over nothing.

ghost use Rattle.std.specs.Prelude.{◌≡◌, [], ◌∷◌, codes, false, None, Some, true};
ghost use Rattle.pl_events.specs.declared.event.Answer.{Answer};
ghost use Rattle.pl_events.specs.declared.operation.Ask.{Ask};
ghost use Rattle.pl_decide.specs.declared.problem.Child.{Child};
ghost use Rattle.pl_decide.specs.declared.problem.Problem.{Problem};
ghost use Rattle.pl_model.specs.declared.work.Work.TheVariants.{Keep as to_keep, Post as to_post, Send as to_send};
ghost use Rattle.pl_model.specs.Due.{count_of, has_open, over_limit};
ghost use Rattle.pl_model.specs.Plan.{plan_by};
ghost use Rattle.pl_model_rows.specs.FirstCreate.{a_creating, cut_off, entries, events, run};
ghost use Rattle.pl_model_rows.specs.Pieces.{a_urn, checks_inputs, checks_provider, configures, creates, k_one, provider_entry, provider_urn, stack_entry, stack_urn, state_with};
ghost use Rattle.pl_model_rows.specs.Prefixes.{answer_at, ask_at, choices_of, due_at, due_on_at, known_at, known_end, marks_of, state_at};

/// The states, and after which events they are saved: the creation waits without an id and outputs.
pub fn states()
    ensures stack { state_at run events 2 ≡ state_with (stack_entry ∷ []) [] }
    ensures provider { state_at run events 9 ≡ state_with (stack_entry ∷ provider_entry ∷ []) [] }
    ensures creating { state_at run events 12 ≡ state_with (stack_entry ∷ provider_entry ∷ []) (a_creating ∷ []) }
    ensures created { state_at run events 15 ≡ state_with entries [] }
    ensures saved { marks_of run events ≡ 2 ∷ 9 ∷ 12 ∷ 13 ∷ [] }
    ensures counted { count_of (known_at run events 12) ≡ 3 }
{}

/// What is chosen as the history goes on.
pub fn choices()
    ensures { choices_of run events
        ≡ None ∷ Some (to_keep 0) ∷ Some (to_post 1) ∷ None
        ∷ Some (to_send (checks_provider 1)) ∷ None ∷ Some (to_send (configures 1)) ∷ None
        ∷ Some (to_keep 1)
        ∷ Some (to_send (checks_inputs 2)) ∷ None
        ∷ Some (to_send (creates 2)) ∷ None
        ∷ Some (to_post 2) ∷ None ∷ None ∷ [] }
{}

/// The provider is configured on the lane on which its inputs were checked, and on no other one.
pub fn lanes()
    ensures first { due_on_at run events 4 (checks_provider 1) 0 ≡ true }
    ensures same { due_on_at run events 6 (configures 1) 0 ≡ true }
    ensures other { due_on_at run events 6 (configures 1) 1 ≡ false }
    ensures create { due_on_at run events 11 (creates 2) 0 ≡ true }
{}

/// What the provider is asked, and the host is answered.
pub fn asks()
    ensures config { ask_at run events 4 (checks_provider 1) ≡ Some (Ask.CheckConfig provider_urn [] None) }
    ensures configure { ask_at run events 6 (configures 1) ≡ Some (Ask.Configure []) }
    ensures check { ask_at run events 9 (checks_inputs 2) ≡ Some (Ask.Check a_urn k_one None) }
    ensures create { ask_at run events 11 (creates 2) ≡ Some (Ask.Create a_urn k_one) }
    ensures answer { answer_at run events 13 2 ≡ Answer.Registered a_urn (Some (codes "a-1")) k_one }
{}

/// The same where the provider's output ends before its last reply: the creation stays pending.
pub fn cut_off_create()
    ensures state { state_at run cut_off 13 ≡ state_with (stack_entry ∷ provider_entry ∷ []) (a_creating ∷ []) }
    ensures told { (known_end run cut_off).problems ≡ (12, Problem.ChildEnded (Child.Lane 0)) ∷ [] }
    ensures saved { marks_of run cut_off ≡ 2 ∷ 9 ∷ 12 ∷ [] }
    ensures before { due_at run cut_off 12 ≡ [] }
    ensures due { due_at run cut_off 13 ≡ to_post 2 ∷ [] }
    ensures answer { answer_at run cut_off 13 2 ≡ Answer.Refused (codes "halted") }
{}

/// How it ends.
pub fn end()
    ensures planned { plan_by (known_end run events)
        ≡ (stack_urn, codes "create") ∷ (provider_urn, codes "create") ∷ (a_urn, codes "create") ∷ [] }
    ensures no_problem { (known_end run events).problems ≡ [] }
    ensures closed { has_open (known_end run events) ≡ false }
    ensures nothing_due { due_at run events 15 ≡ [] }
    ensures nothing_over { over_limit (known_end run events) ≡ [] }
{}
