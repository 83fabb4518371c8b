//! Turns at a `Mutex` of the standard library.
ghost use Rattle.std.specs.Prelude.{◌^◌, ◌<◌, ◌≤◌};
ghost use denote.Param.Send.{IsSync};

use std::sync::{Mutex, Wait};
use std::thread;
use std::thread::Threads;

// So many turns, each of which adds one.
fn add_ones<R: Wait>(rt: &R, number: &Mutex<u64>, turns: u64) {
    for _ in 0..turns {
        let mut held = number.lock(rt);
        *held = held.wrapping_add(1);
    }
}

// The threads from `next` up to `size` take their turns, each beside the ones after it.
#[cycle(adding)]
fn crew_from<R: Threads + Wait + Sync>(
    rt: &R,
    number: &Mutex<u64>,
    next: u64,
    size: u64,
    turns: u64,
)
    requires size { (next ≤ size) × (size < 2 ^ 32) }
{
    if next == size {
        return add_ones(rt, number, turns);
    }
    let one = || add_ones(rt, number, turns);
    let others = ||
        requires sync { IsSync R.row }
        requires size { (next < size) × (size < 2 ^ 32) }
    { crew_from(rt, number, next + 1, size, turns) };
    thread::join(rt, one, others);
}

/// So many threads take so many turns each, and each turn adds one. It answers what the number came to, of which no clause speaks.
pub fn mutex_total<R: Threads + Wait + Sync>(rt: &R, threads: u64, turns: u64) -> u64
    requires threads { (0 < threads) × (threads < 2 ^ 32) }
{
    let number = Mutex::new(0);
    crew_from(rt, &number, 1, threads, turns);
    number.into_inner()
}
