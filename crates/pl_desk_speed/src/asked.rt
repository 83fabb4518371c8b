//! What the words ask for.
ghost use Rattle.std.specs.Prelude.{◌≡◌, ◌<◌, ◌≤◌, IfSome, length};

use crate::kind::{Kind, kind_named};

/// The most threads.
const MOST_THREADS: u64 = 1000;

/// So many threads that take so many turns each.
#[derive(Clone, Copy)]
pub struct Asked {
    pub kind: Kind,
    pub threads: u64,
    pub turns: u64,
}

/// What three words ask for: a kind, a number of threads that is not 0, and a number of turns.
pub fn asked_by(words: &[String]) -> Option<Asked>
    ensures three { IfSome result (λ _. length words.now ≡ 3) }
    ensures threads { IfSome result (λ asked. (0 < asked.threads) × (asked.threads ≤ 1000)) }
{
    let [kind, threads, turns] = words else {
        return None;
    };
    let kind = kind_named(kind.as_str())?;
    let threads = threads.as_str().parse::<u64>().ok()?;
    let turns = turns.as_str().parse::<u64>().ok()?;
    if threads == 0 || threads > MOST_THREADS {
        return None;
    }
    Some(Asked {
        kind,
        threads,
        turns,
    })
}
