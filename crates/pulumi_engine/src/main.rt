//! The program: it runs the engine over a file, child processes and its own streams, and tells at the end
//! in one line of standard error what came of it.
#![tactic(auto)]

#[cfg(test)]
mod host_tests;
mod host_words;
#[cfg(test)]
mod real_tests;
mod refused;
mod report;
#[cfg(test)]
mod tests;
mod toy_words;

use crate::refused::OUT_OF_MEMORY;
use crate::report::{RunFacts, told};
use pl_cli::file_of;
use pl_decide::Outcome;
use pl_engine::{Finished, World, engine};
use pl_events::{Event, What};
use pl_os::{Children, FileStore, RandomIds, StandardOutput};
use pl_value::OutOfMemory;
use pl_world::FreeGate;
use std::alloc::{AllocError, Global};
use std::process::ExitCode;
use std::sync::Wait;
use std::thread::Threads;
use std::{env, io};

/// The status for words that are not UTF-8.
const BAD_WORDS: u8 = 2;

type Real = World<FileStore, FileStore, Children, StandardOutput, RandomIds, FreeGate>;

/// The world of files and processes, with the checkpoint in this file. No command of this version has a
/// file beside it.
fn real_world(rt: HostRuntime, ids: RandomIds, file: &str) -> Result<Real, OutOfMemory> {
    Ok(World {
        store: FileStore::new(rt, file)?,
        side: FileStore::new(rt, "")?,
        spawner: Children::new(rt),
        sink: StandardOutput::new(rt),
        ids,
        gate: FreeGate,
    })
}

/// The words after the program's own name; none where a word is not UTF-8.
fn words_of(rt: &HostRuntime) -> Option<Vec<String>> {
    let mut words = Vec::new(rt.alloc());
    for word in env::args(rt).ok()?.skip(1) {
        words.push(word).ok()?;
    }
    Some(words)
}

/// The host's words, those after the first `--`, with blanks between them.
fn host_of(alloc: Global, words: &[String]) -> Result<String, AllocError> {
    let mut host = String::new(alloc);
    for word in words
        .iter()
        .skip_while(|word| word.as_str() != "--")
        .skip(1)
    {
        if !host.is_empty() {
            host.push(' ')?;
        }
        host.push_str(word.as_str())?;
    }
    Ok(host)
}

/// How many entries a run recorded, which began with none.
fn recorded(history: &[Event]) -> usize {
    history
        .iter()
        .filter(|event| matches!(event.what, What::Kept { .. }))
        .count()
}

/// Carries out the words and tells what came of it; the status is the engine's. What `state` prints by standard output
/// isn't told again.
fn run<R: Threads + Wait + Sync>(
    threads: &R,
    rt: HostRuntime,
    ids: RandomIds,
    words: &[String],
) -> Result<u8, OutOfMemory> {
    let alloc = rt.alloc();
    let file = file_of(alloc, words)?;
    let host = host_of(alloc, words)?;
    let world = real_world(rt, ids, file.as_str())?;
    let Finished {
        status,
        outcome,
        world,
        run,
    } = engine(threads, alloc, words, world);
    let facts = RunFacts {
        file: file.as_str(),
        host: host.as_str(),
        resources: recorded(run.history.as_slice()),
    };
    let is_shown = run.host.is_none() && matches!(outcome, Outcome::Done);
    world.spawner.finish(run);
    if !is_shown && let Ok(line) = told(alloc, &outcome, facts) {
        let _ = rt.eprintln(line.as_str());
    }
    Ok(status)
}

/// The status where the first word makes the program a child of the engine: a host or the toy.
fn child(rt: HostRuntime, words: &[String]) -> Option<u8> {
    match host_words::run_host(rt, words) {
        Some(status) => Some(status),
        None => toy_words::toy(rt, words),
    }
}

fn main(rt: HostRuntime) -> io::Result<ExitCode> {
    let Some(words) = words_of(&rt) else {
        let _ = rt.eprintln("a word of the command line is not UTF-8");
        return Ok(ExitCode::from(BAD_WORDS));
    };
    if let Some(status) = child(rt, words.as_slice()) {
        return Ok(ExitCode::from(status));
    }
    match run(&rt, rt, RandomIds::new(&rt)?, words.as_slice()) {
        Ok(status) => Ok(ExitCode::from(status)),
        Err(OutOfMemory) => {
            let _ = rt.eprintln("out of memory");
            Ok(ExitCode::from(OUT_OF_MEMORY))
        }
    }
}
