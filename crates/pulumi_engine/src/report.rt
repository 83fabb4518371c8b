use pl_decide::{Child, Outcome, Problem};
use pl_show::reason_path;
use pl_state::BadCheckpoint;
use std::alloc::{AllocError, Global};

/// The most bytes of a bad message that are shown.
const MOST_SHOWN: usize = 200;

/// What an outcome alone does not say of a run.
#[derive(Clone, Copy)]
pub struct RunFacts<'a> {
    /// The path of the checkpoint's file.
    pub file: &'a str,
    /// The host's words, with blanks between them.
    pub host: &'a str,
    /// How many resources the run recorded.
    pub resources: usize,
}

/// What came of a run, in a line of plain words.
pub fn told(alloc: Global, outcome: &Outcome, facts: RunFacts<'_>) -> Result<String, AllocError> {
    let RunFacts { file, host, .. } = facts;
    match outcome {
        Outcome::Done => told_done(alloc, facts),
        Outcome::Failed { problem, .. } => format!(in alloc; "failed: {}", reason(problem)),
        Outcome::TooManyResources => {
            format!(in alloc; "stopped: there would be more resources than a state may have")
        }
        Outcome::BadWords { place } => {
            format!(in alloc;
                "bad words: what stands at place {place} (counted from 0) may not, or something is missing there"
            )
        }
        Outcome::NotBuilt => {
            format!(in alloc; "not built: {file} has resources, and this version begins with none")
        }
        Outcome::BadCheckpoint(why) => told_bad(alloc, file, why),
        Outcome::PendingOperations(1) => {
            format!(in alloc; "{file} has a pending operation, left by a run that was cut short")
        }
        Outcome::PendingOperations(number) => {
            format!(in alloc;
                "{file} has {number} pending operations, left by a run that was cut short"
            )
        }
        Outcome::StoreFault => format!(in alloc; "{file} could not be read or replaced"),
        Outcome::SideFault => {
            format!(in alloc; "the file of a plan or an import could not be read or written")
        }
        Outcome::StartFault => format!(in alloc; "the host could not be started: {host}"),
        Outcome::SinkFault => format!(in alloc; "standard output could not be written"),
        Outcome::OutOfMemory => format!(in alloc; "out of memory"),
        Outcome::PipeFault(child) | Outcome::ChildEnded(child) | Outcome::BadFrame { child, .. } =>
            { told_child(alloc, outcome, child_told(alloc, *child, host)?.as_str()) }
    }
}

/// The success of a run, with the number of its resources.
fn told_done(alloc: Global, facts: RunFacts<'_>) -> Result<String, AllocError> {
    let file = facts.file;
    match facts.resources {
        0 => format!(in alloc; "done: no resource was registered, so {file} was not written"),
        1 => format!(in alloc; "done: {file} has 1 resource"),
        number => format!(in alloc; "done: {file} has {number} resources"),
    }
}

/// Why the file is no checkpoint, and where in it the fault stands.
fn told_bad(alloc: Global, file: &str, why: &BadCheckpoint) -> Result<String, AllocError> {
    match reason_path(why) {
        "" => format!(in alloc; "{file} is no checkpoint: {why}"),
        path => format!(in alloc; "{file} is no checkpoint: {why}, at {path}"),
    }
}

/// What is told of a child that spoils a run.
fn told_child(alloc: Global, outcome: &Outcome, child: &str) -> Result<String, AllocError> {
    match outcome {
        Outcome::ChildEnded(_) => format!(in alloc; "{child} ended before its last word"),
        Outcome::BadFrame { bytes, .. } => {
            let shown = bytes_told(alloc, bytes.as_slice())?;
            format!(in alloc; "{child} sent what may not stand there: {shown}")
        }
        _ => format!(in alloc; "what {child} says could not be read, or it could not be answered"),
    }
}

fn child_told(alloc: Global, child: Child, host: &str) -> Result<String, AllocError> {
    match child {
        Child::Host => format!(in alloc; "the host ({host})"),
        Child::Lane(number) => format!(in alloc; "provider child {number}"),
    }
}

/// The bytes as a text, where they are a short one; else how many they are.
fn bytes_told(alloc: Global, bytes: &[u8]) -> Result<String, AllocError> {
    match str::from_utf8(bytes) {
        Ok(text) if bytes.len() <= MOST_SHOWN => format!(in alloc; "{text:?}"),
        _ => format!(in alloc; "{} bytes", bytes.len()),
    }
}

/// A problem in plain words.
fn reason(problem: &Problem) -> &'static str {
    match problem {
        Problem::BadOption(_) => "a registration's options don't fit together",
        Problem::UnknownReference(_) => "a request names what was not registered",
        Problem::DuplicateUrn(_) => "a resource was registered twice",
        Problem::OutputsOfCustom(_) => "outputs were told of what is no component",
        Problem::ReadOverManaged(_) => "what is managed was to be read",
        Problem::CustomChanged(_) => "a component became a resource, or the other way round",
        Problem::ImportConflict(_) => "another id was to be imported than the one that is there",
        Problem::ImportMissing(_) => "there is nothing to import",
        Problem::Protected(_) => "a protected resource would have to be deleted",
        Problem::MissingProvider(_) => "a resource's provider is not there",
        Problem::NotPermitted(_) => "the run's limits don't permit a step",
        Problem::NoPendingCreate(_) => "there is no pending creation to close",
        Problem::CheckFailed(_) => "a provider refused the inputs",
        Problem::ErrorReply(_) => "a provider answered by an error",
        Problem::PartialReply(_) => "a provider did its work in part",
        Problem::MessageTooLong => "an answer would be longer than a frame may be",
        Problem::HostError(_) => "the host ended by an error of its own",
        Problem::StoreFault => "the checkpoint could not be replaced",
        Problem::StartFault => "a child could not be started",
        Problem::PipeFault(_) => "a child's pipe failed",
        Problem::ChildEnded(_) => "a child ended before its last word",
        Problem::BadFrame { .. } => "a child sent what may not stand there",
        Problem::TooManyResources => "there would be more resources than a state may have",
        Problem::NoMemory => "memory was wanted",
    }
}
