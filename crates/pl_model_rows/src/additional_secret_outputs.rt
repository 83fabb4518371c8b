//! A thing is created; one of its outputs is to be kept as a secret.

ghost use Rattle.std.specs.Prelude.{◌≡◌, [], ◌∷◌, codes, None, Some};
ghost use Rattle.pl_value.specs.Shown.{masked};
ghost use Rattle.pl_value.specs.declared.value.Value.TheVariants as value;
ghost use Rattle.pl_events.specs.declared.event.Answer.{Answer};
ghost use Rattle.pl_events.specs.declared.operation.Ask.{Ask};
ghost use Rattle.pl_model_rows.specs.Pieces.{a_urn, creates, creating, k_one, one_field, provider_entry, stack_entry};
ghost use Rattle.pl_model_rows.specs.Prefixes.{answer_at, ask_at, known_end, marks_of, state_at};
ghost use Rattle.pl_model_rows.specs.SecretOutputs.{a_entry, events, k_secret, run};

/// What is recorded and answered: the secret. What waits for its reply has no outputs.
pub fn secrets()
    ensures creating { (state_at run events 12).pending ≡ creating (record a_entry { id = None; outputs = [] }) ∷ [] }
    ensures created { (state_at run events 13).entries ≡ stack_entry ∷ provider_entry ∷ a_entry ∷ [] }
    ensures answer { answer_at run events 13 2 ≡ Answer.Registered a_urn (Some (codes "a-1")) k_secret }
    ensures create_asked { ask_at run events 11 (creates 2) ≡ Some (Ask.Create a_urn k_one) }
{}

/// The program tells it as an output of the stack, which is kept so and shown without it.
pub fn stack_outputs()
    ensures state { (state_at run events 15).entries ≡ record stack_entry { outputs = k_secret } ∷ provider_entry ∷ a_entry ∷ [] }
    ensures saved { marks_of run events ≡ 2 ∷ 9 ∷ 12 ∷ 13 ∷ 15 ∷ [] }
    ensures shown { masked (value.Object k_secret) ≡ value.Object (one_field (codes "k") (value.Text (codes "[secret]"))) }
    ensures no_problem { (known_end run events).problems ≡ [] }
{}
