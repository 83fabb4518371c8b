//! Turns at the lock.
ghost use Rattle.std.specs.Prelude.{◌≡◌, ℕ, ◌+◌, ◌*◌, ◌^◌, ◌<◌, ◌≤◌, false, List, [], length, IfOk};
ghost use Rattle.pl_desk.specs.Seats.{id_of, desk_of, number, has_turn, made};
ghost use Rattle.pl_desk.specs.Posed.{Has};
ghost use Rattle.pl_desk_speed.specs.Turns.{own, taken_in};
ghost use denote.Param.Send.{IsSync};

use crate::tally::Tally;
use pl_desk::{Chronicle, Desk, OutOfMemory, Seat, close, enter, join, leave, new, split};
use std::alloc::Global;
use std::sync::Wait;
use std::thread;
use std::thread::Threads;

// A turn that adds one, where there is room.
fn take_turn<R: Wait>(desk: &Desk<Tally>, rt: &R, seat: &mut Seat<Tally>, by: u64)
    requires desk { desk_of seat.old ≡ id_of desk.now }
    requires turn { (has_turn seat.old ≡ false) × (number seat.old ≡ by) }
    ensures seat { (desk_of seat.new ≡ desk_of seat.old) × (has_turn seat.new ≡ false) × (number seat.new ≡ by) × (made seat.new ≡ made seat.old) }
    ensures kept { taken_in seat.new ≡ taken_in seat.old }
    ensures mine { length (own seat.new) ≤ length (own seat.old) + 1 }
{
    let mut turn = enter(desk, rt, seat);
    turn.item.add(by);
    leave(desk, seat, turn);
}

// So many turns.
fn take_turns<R: Wait>(
    desk: &Desk<Tally>,
    rt: &R,
    mut seat: Seat<Tally>,
    by: u64,
    turns: u64,
) -> Seat<Tally>
    requires desk { desk_of seat ≡ id_of desk.now }
    requires turn { (has_turn seat ≡ false) × (number seat ≡ by) }
    ensures seat { (desk_of result ≡ desk_of seat) × (has_turn result ≡ false) × (number result ≡ by) × (made result ≡ made seat) }
    ensures kept { taken_in result ≡ taken_in seat }
    ensures mine { length (own result) ≤ length (own seat) + turns }
{
    for i in 0..turns {
        take_turn(desk, rt, &mut seat, by);
    }
    seat
}

// The first seat makes the seats from `next` below `size`, each of which takes its turns in a thread of its own, and takes them in.
#[cycle(making)]
fn crew_from<R: Threads + Wait + Sync>(
    rt: &R,
    desk: &Desk<Tally>,
    mut first: Seat<Tally>,
    next: u64,
    size: u64,
    turns: u64,
) -> Seat<Tally>
    requires desk { desk_of first ≡ id_of desk.now }
    requires turn { (has_turn first ≡ false) × (number first ≡ 0) × (made first ≡ next) }
    requires own { length (own first) ≡ 0 }
    requires size { (next ≤ size) × (size < 2 ^ 32) }
    ensures seat { (desk_of result ≡ id_of desk.now) × (has_turn result ≡ false) × (number result ≡ 0) × (made result ≡ size) }
    ensures own { length (own result) ≤ turns }
    ensures gathered { (n : ℕ) → next ≤ n → n < size → (ls : List ℕ) × Has (taken_in result) n ls × (length ls ≤ turns) }
{
    if next == size {
        return take_turns(desk, rt, first, 0, turns);
    }
    let Ok(other) = split(desk, &mut first) else {
        unreachable!()
    };
    let one = || -> Seat<Tally>
        requires seat { (desk_of other ≡ id_of desk.now) × (has_turn other ≡ false) × (number other ≡ next) }
        requires own { length (own other) ≡ 0 }
        ensures seat { (desk_of result ≡ id_of desk.entry.now) × (has_turn result ≡ false) × (number result ≡ next) }
        ensures own { length (own result) ≤ turns }
    { take_turns(desk, rt, other, next, turns) };
    let others = || -> Seat<Tally>
        requires sync { IsSync R.row }
        requires seat { (desk_of first ≡ id_of desk.now) × (has_turn first ≡ false) × (number first ≡ 0) × (made first ≡ next + 1) }
        requires own { length (own first) ≡ 0 }
        requires size { (next < size) × (size < 2 ^ 32) }
        ensures seat { (desk_of result ≡ id_of desk.entry.now) × (has_turn result ≡ false) × (number result ≡ 0) × (made result ≡ size) }
        ensures own { length (own result) ≤ turns }
        ensures gathered { (n : ℕ) → next + 1 ≤ n → n < size → (ls : List ℕ) × Has (taken_in result) n ls × (length ls ≤ turns) }
    { crew_from(rt, desk, first, next + 1, size, turns) };
    let (other, mut first) = thread::join(rt, one, others);
    join(desk, &mut first, other);
    first
}

/// So many threads take so many turns each, and each turn adds one. It answers what the tally came to.
pub fn lock_total<R: Threads + Wait + Sync>(
    rt: &R,
    alloc: Global,
    threads: u64,
    turns: u64,
) -> Result<u64, OutOfMemory>
    requires threads { (0 < threads) × (threads < 2 ^ 32) }
    ensures total { IfOk result (λ total. total ≤ threads * turns) }
{
    let Ok((desk, first)) = new(alloc, Tally::zero()) else {
        return Err(OutOfMemory);
    };
    let first = crew_from(rt, &desk, first, 1, threads, turns);
    Ok(close(desk, first).length())
}
