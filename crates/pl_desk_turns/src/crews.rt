//! Any number of threads that take turns, with one that rests first.
ghost use Rattle.std.specs.Prelude.{◌≡◌, ℕ, ◌+◌, ◌^◌, ◌<◌, ◌≤◌, false, List, [], length, IfOk, IfErr, All};
ghost use Rattle.pl_desk.specs.Seats.{id_of, desk_of, number, has_turn, made};
ghost use Rattle.pl_desk.specs.Posed.{Has};
ghost use Rattle.pl_desk_turns.specs.Counts.{known, taken_in, title_at};
ghost use Rattle.pl_desk_turns.specs.declared.notes.Note.{Note};
ghost use denote.Param.Send.{IsSync};

use crate::notes::Notes;
use crate::turns::take_turns;
use pl_desk::{Chronicle, Desk, OutOfMemory, Seat, close, enter, join, leave, new, rest, split};
use std::alloc::Global;
use std::sync::Wait;
use std::thread;
use std::thread::Threads;

/// What each seat does: the first rests until the list has more than `after` lines, and each takes `turns` turns.
#[derive(Clone, Copy)]
pub struct Work {
    pub after: u64,
    pub turns: u64,
}

// Rests until the list has more lines.
fn rest_until<R: Wait>(desk: &Desk<Notes>, rt: &R, seat: &mut Seat<Notes>, after: u64)
    requires desk { desk_of seat.old ≡ id_of desk.now }
    requires turn { has_turn seat.old ≡ false }
    ensures seat { (desk_of seat.new ≡ desk_of seat.old) × (has_turn seat.new ≡ false) × (number seat.new ≡ number seat.old) × (made seat.new ≡ made seat.old) }
    ensures kept { (taken_in seat.new ≡ taken_in seat.old) × (title_at seat.new ≡ title_at seat.old) }
    ensures longer { after < length (known seat.new) }
{
    for _ in rt.forever() {
        rest(desk, rt, seat, after);
        let turn = enter(desk, rt, seat);
        let length = turn.item.length();
        leave(desk, seat, turn);
        if length > after {
            return;
        }
    }
    unreachable!()
}

fn first_works<R: Wait>(
    desk: &Desk<Notes>,
    rt: &R,
    mut seat: Seat<Notes>,
    work: Work,
) -> Seat<Notes>
    requires desk { desk_of seat ≡ id_of desk.now }
    requires turn { (has_turn seat ≡ false) × (number seat ≡ 0) }
    ensures seat { (desk_of result ≡ desk_of seat) × (has_turn result ≡ false) × (number result ≡ 0) × (made result ≡ made seat) }
    ensures kept { (taken_in result ≡ taken_in seat) × (title_at result ≡ title_at seat) }
{
    rest_until(desk, rt, &mut seat, work.after);
    take_turns(desk, rt, &mut seat, 0, work.turns);
    seat
}

fn other_works<R: Wait>(
    desk: &Desk<Notes>,
    rt: &R,
    mut seat: Seat<Notes>,
    by: u64,
    work: Work,
) -> Seat<Notes>
    requires desk { desk_of seat ≡ id_of desk.now }
    requires turn { (has_turn seat ≡ false) × (number seat ≡ by) }
    ensures seat { (desk_of result ≡ desk_of seat) × (has_turn result ≡ false) × (number result ≡ by) }
{
    take_turns(desk, rt, &mut seat, by, work.turns);
    seat
}

// The first seat makes the seats from `next` below `size`, each of which works in a thread of its own, and takes them in.
#[cycle(making)]
fn crew_from<R: Threads + Wait + Sync>(
    rt: &R,
    desk: &Desk<Notes>,
    mut first: Seat<Notes>,
    next: u64,
    size: u64,
    work: Work,
) -> Seat<Notes>
    requires desk { desk_of first ≡ id_of desk.now }
    requires turn { (has_turn first ≡ false) × (number first ≡ 0) × (made first ≡ next) }
    requires size { (next ≤ size) × (size < 2 ^ 32) }
    ensures seat { (desk_of result ≡ id_of desk.now) × (has_turn result ≡ false) × (number result ≡ 0) × (made result ≡ size) }
    ensures gathered { (n : ℕ) → next ≤ n → n < size → (ls : List Note) × Has (taken_in result) n ls }
    ensures title { title_at result ≡ title_at first }
{
    if next == size {
        return first_works(desk, rt, first, work);
    }
    let Ok(other) = split(desk, &mut first) else {
        unreachable!()
    };
    let one = || -> Seat<Notes>
        requires seat { (desk_of other ≡ id_of desk.now) × (has_turn other ≡ false) × (number other ≡ next) }
        ensures seat { (desk_of result ≡ id_of desk.entry.now) × (has_turn result ≡ false) × (number result ≡ next) }
    { other_works(desk, rt, other, next, work) };
    let others = || -> Seat<Notes>
        requires sync { IsSync R.row }
        requires seat { (desk_of first ≡ id_of desk.now) × (has_turn first ≡ false) × (number first ≡ 0) × (made first ≡ next + 1) }
        requires size { (next < size) × (size < 2 ^ 32) }
        ensures seat { (desk_of result ≡ id_of desk.entry.now) × (has_turn result ≡ false) × (number result ≡ 0) × (made result ≡ size) }
        ensures gathered { (n : ℕ) → next + 1 ≤ n → n < size → (ls : List Note) × Has (taken_in result) n ls }
        ensures title { title_at result ≡ title_at first }
    { crew_from(rt, desk, first, next + 1, size, work) };
    let (other, mut first) = thread::join(rt, one, others);
    join(desk, &mut first, other);
    first
}

/// So many seats work, each in a thread of its own.
pub fn crew<R: Threads + Wait + Sync>(
    rt: &R,
    alloc: Global,
    notes: Notes,
    size: u64,
    work: Work,
) -> Result<Notes, (Notes, OutOfMemory)>
    requires none { notes.notes.items ≡ [] }
    requires size { (0 < size) × (size < 2 ^ 32) }
    ensures numbers { IfOk result (λ r. All (λ n. n.seat < size) r.notes.items) }
    ensures title { IfOk result (λ r. r.title ≡ notes.title) }
    ensures err { IfErr result (λ e. e.0 ≡ notes) }
{
    let (desk, first) = new(alloc, notes)?;
    let first = crew_from(rt, &desk, first, 1, size, work);
    Ok(close(desk, first))
}
