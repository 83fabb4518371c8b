ghost use Rattle.std.specs.Prelude.{◌≡◌};
ghost use Rattle.pl_host_word.specs.Words.{call_named, call_word};

/// What a host's message is.
#[derive(Clone, Copy, Debug, PartialEq, Eq)]
pub(crate) enum HostCall {
    Register,
    Read,
    Outputs,
    Invoke,
    /// The word of success.
    Done,
    /// The word of error.
    Failed,
}

/// The word of a call.
pub(crate) fn call_word(call: HostCall) -> &'static str
    ensures { result.now ≡ call_word call }
{
    match call {
        HostCall::Register => "register",
        HostCall::Read => "read",
        HostCall::Outputs => "outputs",
        HostCall::Invoke => "invoke",
        HostCall::Done => "done",
        HostCall::Failed => "failed",
    }
}

/// The call that a word names.
pub(crate) fn call_named(word: &str) -> Option<HostCall>
    ensures { result ≡ call_named word.now }
{
    match word {
        "register" => Some(HostCall::Register),
        "read" => Some(HostCall::Read),
        "outputs" => Some(HostCall::Outputs),
        "invoke" => Some(HostCall::Invoke),
        "done" => Some(HostCall::Done),
        "failed" => Some(HostCall::Failed),
        _ => None,
    }
}
