ghost use Rattle.std.specs.Prelude.{◌≡◌, ◌++◌, decimal, string_bytes, IfOk, OnOk};
ghost use Rattle.pl_json.specs.Faults.{path_of};
ghost use Rattle.pl_show.specs.StopLine.{detail, fault_name, outcome_name, reason_name, reason_path, spaced, stopped_line};

use pl_decide::Outcome;
use pl_state::BadCheckpoint;
use pl_value::{JsonFault, OutOfMemory, Text};
use std::alloc::Global;

/// The line of an outcome that stopped a command before there was a history; a problem of a history is not told.
pub fn stopped(alloc: Global, outcome: &Outcome) -> Result<Text, OutOfMemory>
    ensures { IfOk result (λ text. text ≡ stopped_line outcome.now) }
{
    let detail = detail_of(alloc, outcome)?;
    let mut text = String::from_str(alloc, "stopped: ")?;
    text.push_str(name_of(outcome))?;
    push_spaced(&mut text, detail.as_str())?;
    text.push_str("\n")?;
    Ok(Text::from_string(text))
}

/// Adds a blank and the word; nothing where the word is empty.
fn push_spaced(text: &mut String, word: &str) -> Result<(), OutOfMemory>
    ensures { OnOk result (string_bytes text.new ≡ string_bytes text.old ++ spaced word.now) }
{
    if !word.is_empty() {
        text.push_str(" ")?;
        text.push_str(word)?;
    }
    Ok(())
}

/// What is told of the outcome behind its name.
fn detail_of(alloc: Global, outcome: &Outcome) -> Result<Text, OutOfMemory>
    ensures { IfOk result (λ text. text ≡ detail outcome.now) }
{
    match outcome {
        Outcome::BadWords { place } => number_text(alloc, *place),
        Outcome::PendingOperations(number) => number_text(alloc, *number),
        Outcome::BadCheckpoint(why) => reason_text(alloc, why),
        _ => Ok(Text::from_string(String::new(alloc))),
    }
}

fn number_text(alloc: Global, number: u64) -> Result<Text, OutOfMemory>
    ensures { IfOk result (λ text. text ≡ decimal number) }
{
    let text = format!(in alloc; "{number}")?;
    Ok(Text::from_string(text))
}

fn reason_text(alloc: Global, why: &BadCheckpoint) -> Result<Text, OutOfMemory>
    ensures { IfOk result (λ text. text ≡ reason_name why.now ++ spaced (reason_path why.now)) }
{
    let mut text = String::from_str(alloc, reason_name(why))?;
    push_spaced(&mut text, reason_path(why))?;
    Ok(Text::from_string(text))
}

fn name_of(outcome: &Outcome) -> &'static str
    ensures { result.now ≡ outcome_name outcome.now }
{
    match outcome {
        Outcome::Done => "Done",
        Outcome::Failed { .. } => "Failed",
        Outcome::TooManyResources => "TooManyResources",
        Outcome::BadWords { .. } => "BadWords",
        Outcome::NotBuilt => "NotBuilt",
        Outcome::BadCheckpoint(_) => "BadCheckpoint",
        Outcome::PendingOperations(_) => "PendingOperations",
        Outcome::StoreFault => "StoreFault",
        Outcome::SideFault => "SideFault",
        Outcome::StartFault => "StartFault",
        Outcome::PipeFault(_) => "PipeFault",
        Outcome::SinkFault => "SinkFault",
        Outcome::ChildEnded(_) => "ChildEnded",
        Outcome::BadFrame { .. } => "BadFrame",
        Outcome::OutOfMemory => "OutOfMemory",
    }
}

fn reason_name(why: &BadCheckpoint) -> &'static str
    ensures { result.now ≡ reason_name why.now }
{
    match why {
        BadCheckpoint::NotJson => "NotJson",
        BadCheckpoint::NotVersion3(_) => "NotVersion3",
        BadCheckpoint::MissingField(_) => "MissingField",
        BadCheckpoint::WrongKind(_) => "WrongKind",
        BadCheckpoint::BadUrn(_) => "BadUrn",
        BadCheckpoint::BadValue(fault) => fault_name(fault),
        BadCheckpoint::TooMany(_) => "TooMany",
        BadCheckpoint::Unsound(_) => "Unsound",
    }
}

/// The path of the faulty place; empty where the reason has none.
pub fn reason_path(why: &BadCheckpoint) -> &str
    ensures { result.now ≡ reason_path why.now }
{
    match why {
        BadCheckpoint::MissingField(path)
        | BadCheckpoint::WrongKind(path)
        | BadCheckpoint::BadUrn(path) => path.as_str(),
        BadCheckpoint::BadValue(fault) => fault_path(fault),
        BadCheckpoint::NotJson
        | BadCheckpoint::NotVersion3(_)
        | BadCheckpoint::TooMany(_)
        | BadCheckpoint::Unsound(_) => "",
    }
}

fn fault_name(fault: &JsonFault) -> &'static str
    ensures { result.now ≡ fault_name fault.now }
{
    match fault {
        JsonFault::NotWhole(_) => "NotWhole",
        JsonFault::SecretSealed(_) => "SecretSealed",
        JsonFault::BadSecret(_) => "BadSecret",
        JsonFault::TooDeep(_) => "TooDeep",
        JsonFault::OutOfMemory => "OutOfMemory",
    }
}

fn fault_path(fault: &JsonFault) -> &str
    ensures { result.now ≡ path_of fault.now }
{
    match fault {
        JsonFault::NotWhole(path)
        | JsonFault::SecretSealed(path)
        | JsonFault::BadSecret(path)
        | JsonFault::TooDeep(path) => path.as_str(),
        JsonFault::OutOfMemory => "",
    }
}
