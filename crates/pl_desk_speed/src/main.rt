//! The program: threads take turns at a lock round one number, and the line that it prints is the same whatever the
//! schedule. How long the turns take is measured from outside.
#![tactic(auto)]

mod asked;
mod held;
mod kind;
mod locked;
mod report;
mod story;
mod tally;

use crate::asked::asked_by;
use crate::report::run;
use std::process::ExitCode;
use std::{env, io};

/// The status where there is no memory.
const NO_MEMORY: u8 = 1;

/// The status for words that ask for nothing.
const BAD_WORDS: u8 = 2;

/// The words after the program's own name; none where a word is not UTF-8.
fn words_of(rt: &HostRuntime) -> Option<Vec<String>> {
    let mut words = Vec::new(rt.alloc());
    for word in env::args(rt).ok()?.skip(1) {
        words.push(word).ok()?;
    }
    Some(words)
}

fn main(rt: HostRuntime) -> io::Result<ExitCode> {
    let words = words_of(&rt).unwrap_or(Vec::new(rt.alloc()));
    let Some(asked) = asked_by(words.as_slice()) else {
        eprintln!(rt; "pl_desk_speed (lock | mutex) THREADS TURNS")?;
        return Ok(ExitCode::from(BAD_WORDS));
    };
    let Ok(report) = run(&rt, rt.alloc(), asked) else {
        eprintln!(rt; "out of memory")?;
        return Ok(ExitCode::from(NO_MEMORY));
    };
    println!(rt; "{report}")?;
    Ok(ExitCode::SUCCESS)
}
