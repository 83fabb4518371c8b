use crate::report::{RunFacts, told};
use pl_decide::{Child, Outcome, Problem};
use pl_state::BadCheckpoint;
use pl_value::{Bytes, Text};
use std::alloc::Global;
use std::test::Fail;

const FACTS: RunFacts<'static> = RunFacts {
    file: "web.json",
    host: "node host.js",
    resources: 2,
};

// A line for each outcome.
const LINES: [&str; 21] = [
    "done: web.json has 2 resources",
    "failed: an answer would be longer than a frame may be",
    "stopped: there would be more resources than a state may have",
    "bad words: what stands at place 3 (counted from 0) may not, or something is missing there",
    "not built: web.json has resources, and this version begins with none",
    "web.json is no checkpoint: no JSON text",
    "web.json is no checkpoint: a field is missing, at checkpoint.stack",
    "web.json has 4 pending operations, left by a run that was cut short",
    "web.json has a pending operation, left by a run that was cut short",
    "web.json could not be read or replaced",
    "the file of a plan or an import could not be read or written",
    "the host could not be started: node host.js",
    "what the host (node host.js) says could not be read, or it could not be answered",
    "standard output could not be written",
    "the host (node host.js) ended before its last word",
    "provider child 1 ended before its last word",
    "the host (node host.js) sent what may not stand there: \"{}\"",
    "the host (node host.js) sent what may not stand there: 4 bytes",
    "the host (node host.js) sent what may not stand there: 201 bytes",
    "out of memory",
    "failed: a provider answered by an error",
];

fn bad_frame(alloc: Global, bytes: &[u8]) -> Result<Outcome, Fail> {
    Ok(Outcome::BadFrame {
        child: Child::Host,
        bytes: Bytes::from_slice(alloc, bytes)?,
    })
}

fn missing_field(alloc: Global) -> Result<Outcome, Fail> {
    let path = Text::from_str(alloc, "checkpoint.stack")?;
    Ok(Outcome::BadCheckpoint(BadCheckpoint::MissingField(path)))
}

fn failed(problem: Problem) -> Outcome {
    Outcome::Failed { at: 2, problem }
}

fn error_reply(alloc: Global) -> Result<Outcome, Fail> {
    Ok(failed(Problem::ErrorReply(Text::from_str(alloc, "no")?)))
}

// An outcome of the host's or a provider's doing, in the place of its line.
fn outcome_of_child(alloc: Global, at: usize) -> Result<Outcome, Fail> {
    match at {
        12 => Ok(Outcome::PipeFault(Child::Host)),
        13 => Ok(Outcome::SinkFault),
        14 => Ok(Outcome::ChildEnded(Child::Host)),
        15 => Ok(Outcome::ChildEnded(Child::Lane(1))),
        16 => bad_frame(alloc, b"{}"),
        17 => bad_frame(alloc, &[0, 64, 0, 255]),
        18 => bad_frame(alloc, &[97; 201]),
        19 => Ok(Outcome::OutOfMemory),
        _ => error_reply(alloc),
    }
}

// The outcome in the place of its line.
fn outcome_of(alloc: Global, at: usize) -> Result<Outcome, Fail> {
    match at {
        0 => Ok(Outcome::Done),
        1 => Ok(failed(Problem::MessageTooLong)),
        2 => Ok(Outcome::TooManyResources),
        3 => Ok(Outcome::BadWords { place: 3 }),
        4 => Ok(Outcome::NotBuilt),
        5 => Ok(Outcome::BadCheckpoint(BadCheckpoint::NotJson)),
        6 => missing_field(alloc),
        7 => Ok(Outcome::PendingOperations(4)),
        8 => Ok(Outcome::PendingOperations(1)),
        9 => Ok(Outcome::StoreFault),
        10 => Ok(Outcome::SideFault),
        11 => Ok(Outcome::StartFault),
        _ => outcome_of_child(alloc, at),
    }
}

fn line_at(alloc: Global, at: usize) -> Result<String, Fail> {
    let outcome = outcome_of(alloc, at)?;
    Ok(told(alloc, &outcome, FACTS)?)
}

#[test]
fn outcomes_are_told(rt: HostRuntime) -> Result<(), Fail> {
    for (at, want) in LINES.into_iter().enumerate() {
        let line = line_at(rt.alloc(), at)?;
        assert_eq!(rt; line.as_str(), want);
    }
    Ok(())
}

#[test]
fn resources_are_counted(rt: HostRuntime) -> Result<(), Fail> {
    let none = "done: no resource was registered, so web.json was not written";
    let lines = [(0, none), (1, "done: web.json has 1 resource")];
    for (resources, want) in lines {
        let facts = RunFacts { resources, ..FACTS };
        let line = told(rt.alloc(), &Outcome::Done, facts)?;
        assert_eq!(rt; line.as_str(), want);
    }
    Ok(())
}
