//! Two threads that take turns.
ghost use Rattle.std.specs.Prelude.{◌≡◌, ◌+◌, ◌^◌, ◌<◌, ◌≤◌, false, [], length, if◌then◌else◌, IfOk, IfErr, All};
ghost use Rattle.pl_desk.specs.Rule.{lines_of};
ghost use Rattle.pl_desk.specs.Seats.{id_of, desk_of, number, has_turn, made};
ghost use Rattle.pl_desk_turns.specs.Counts.{own, taken_in, title_at};

use crate::notes::{Note, Notes, Saying};
use pl_desk::{Desk, OutOfMemory, Seat, close, enter, join, leave, new, split};
use std::alloc::Global;
use std::sync::Wait;
use std::thread;
use std::thread::Threads;

// Takes a turn, and adds a note where there is memory and room.
fn take_turn<R: Wait>(desk: &Desk<Notes>, rt: &R, seat: &mut Seat<Notes>, by: u64) -> bool
    requires desk { desk_of seat.old ≡ id_of desk.now }
    requires turn { (has_turn seat.old ≡ false) × (number seat.old ≡ by) }
    ensures seat { (desk_of seat.new ≡ desk_of seat.old) × (has_turn seat.new ≡ false) × (number seat.new ≡ by) × (made seat.new ≡ made seat.old) }
    ensures kept { (taken_in seat.new ≡ taken_in seat.old) × (title_at seat.new ≡ title_at seat.old) }
    ensures mine { length (own seat.new) ≡ length (own seat.old) + (if result then 1 else 0) }
{
    let mut turn = enter(desk, rt, seat);
    let mut added = false;
    if turn.item.notes.len() < 1 << 60 {
        let note = Note {
            seat: by,
            said: Saying::Number(by),
        };
        added = turn.item.add(note).is_ok();
    }
    leave(desk, seat, turn);
    added
}

/// So many turns. It answers how many notes were added.
pub fn take_turns<R: Wait>(
    desk: &Desk<Notes>,
    rt: &R,
    seat: &mut Seat<Notes>,
    by: u64,
    count: u64,
) -> u64
    requires desk { desk_of seat.old ≡ id_of desk.now }
    requires turn { (has_turn seat.old ≡ false) × (number seat.old ≡ by) }
    ensures seat { (desk_of seat.new ≡ desk_of seat.old) × (has_turn seat.new ≡ false) × (number seat.new ≡ by) × (made seat.new ≡ made seat.old) × (result ≤ count) }
    ensures kept { (taken_in seat.new ≡ taken_in seat.old) × (title_at seat.new ≡ title_at seat.old) }
    ensures mine { length (own seat.new) ≡ length (own seat.old) + result }
{
    let mut added = 0;
    for i in 0..count {
        if take_turn(desk, rt, seat, by) {
            added += 1;
        }
    }
    added
}

fn turns_as<R: Wait>(
    desk: &Desk<Notes>,
    rt: &R,
    mut seat: Seat<Notes>,
    by: u64,
    count: u64,
) -> (Seat<Notes>, u64)
    requires desk { desk_of seat ≡ id_of desk.now }
    requires turn { (has_turn seat ≡ false) × (number seat ≡ by) }
    ensures seat { (desk_of result.0 ≡ desk_of seat) × (has_turn result.0 ≡ false) × (number result.0 ≡ by) × (made result.0 ≡ made seat) }
    ensures kept { (taken_in result.0 ≡ taken_in seat) × (title_at result.0 ≡ title_at seat) }
    ensures mine { length (own result.0) ≡ length (own seat) + result.1 }
{
    let added = take_turns(desk, rt, &mut seat, by, count);
    (seat, added)
}

/// The notes after all turns, and how many of them each seat added.
#[derive(Drop)]
pub struct Added {
    pub notes: Notes,
    pub by_first: u64,
    pub by_second: u64,
}

/// Two seats take so many turns each, in a thread of its own, and the list then has just what they added.
pub fn two_threads<R: Threads + Wait + Sync>(
    rt: &R,
    alloc: Global,
    notes: Notes,
    count: u64,
) -> Result<Added, (Notes, OutOfMemory)>
    requires { notes.notes.items ≡ [] }
    ensures numbers { IfOk result (λ r. All (λ n. n.seat < 2) r.notes.notes.items) }
    ensures first { IfOk result (λ r. length (lines_of (λ n. n.seat) 0 r.notes.notes.items) ≡ r.by_first) }
    ensures second { IfOk result (λ r. length (lines_of (λ n. n.seat) 1 r.notes.notes.items) ≡ r.by_second) }
    ensures title { IfOk result (λ r. r.notes.title ≡ notes.title) }
    ensures err { IfErr result (λ e. e.0 ≡ notes) }
{
    let (desk, mut first) = new(alloc, notes)?;
    let Ok(second) = split(&desk, &mut first) else {
        unreachable!()
    };
    let (one, two) = thread::join(
        rt,
        || -> (Seat<Notes>, u64)
            requires seat { (desk_of first ≡ id_of desk) × (has_turn first ≡ false) × (number first ≡ 0) × (made first ≡ 2) }
            requires own { (taken_in first ≡ []) × (length (own first) ≡ 0) }
            ensures seat { (desk_of result.0 ≡ id_of desk) × (has_turn result.0 ≡ false) × (number result.0 ≡ 0) × (made result.0 ≡ 2) }
            ensures own { (taken_in result.0 ≡ []) × (length (own result.0) ≡ result.1) }
            ensures title { title_at result.0 ≡ title_at first }
        { turns_as(&desk, rt, first, 0, count) },
        || -> (Seat<Notes>, u64)
            requires seat { (desk_of second ≡ id_of desk) × (has_turn second ≡ false) × (number second ≡ 1) }
            requires own { length (own second) ≡ 0 }
            ensures seat { (desk_of result.0 ≡ id_of desk) × (has_turn result.0 ≡ false) × (number result.0 ≡ 1) }
            ensures own { length (own result.0) ≡ result.1 }
        { turns_as(&desk, rt, second, 1, count) },
    );
    let (mut first, by_first) = one;
    let (second, by_second) = two;
    join(&desk, &mut first, second);
    let notes = close(desk, first);
    Ok(Added {
        notes,
        by_first,
        by_second,
    })
}
