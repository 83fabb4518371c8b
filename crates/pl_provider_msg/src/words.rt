ghost use Rattle.std.specs.Prelude.{◌≡◌};
ghost use Rattle.pl_provider_msg.specs.Words.{call_named, call_word, changes_named, changes_word};

use pl_events::Call;
use pl_state::Changes;

/// The word of a call.
pub(crate) fn call_word(call: Call) -> &'static str
    ensures { result.now ≡ call_word call }
{
    match call {
        Call::CheckConfig => "check_config",
        Call::Configure => "configure",
        Call::Check => "check",
        Call::Diff => "diff",
        Call::Create => "create",
        Call::Update => "update",
        Call::Delete => "delete",
        Call::Read => "read",
        Call::Invoke => "invoke",
    }
}

/// The call that a word names.
pub(crate) fn call_named(word: &str) -> Option<Call>
    ensures { result ≡ call_named word.now }
{
    match word {
        "check_config" => Some(Call::CheckConfig),
        "configure" => Some(Call::Configure),
        "check" => Some(Call::Check),
        "diff" => Some(Call::Diff),
        "create" => Some(Call::Create),
        "update" => Some(Call::Update),
        "delete" => Some(Call::Delete),
        "read" => Some(Call::Read),
        "invoke" => Some(Call::Invoke),
        _ => None,
    }
}

/// The word for what differs.
pub(crate) fn changes_word(changes: Changes) -> &'static str
    ensures { result.now ≡ changes_word changes }
{
    match changes {
        Changes::NoChange => "none",
        Changes::SomeChange => "some",
        Changes::NotKnown => "unknown",
    }
}

/// What differs, by its word.
pub(crate) fn changes_named(word: &str) -> Option<Changes>
    ensures { result ≡ changes_named word.now }
{
    match word {
        "none" => Some(Changes::NoChange),
        "some" => Some(Changes::SomeChange),
        "unknown" => Some(Changes::NotKnown),
        _ => None,
    }
}
