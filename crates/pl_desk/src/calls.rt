//! Taking turns.
ghost use Rattle.std.specs.Prelude.{◌≡◌, ℕ, ◌+◌, ◌%◌, ◌^◌, ◌<◌, ◌≤◌, true, false, [], ◌++◌, length, drop, All, IfOk, IfErr, IfSome, IfNone, Some};
ghost use mathlib.Core.List.{IsPrefix};
ghost use Rattle.pl_desk.specs.Seats.{id_of, desk_of, place, number, has_turn, made, origin_of, seen, mine, gathered, shown, met};
ghost use Rattle.pl_desk.specs.Posed.{facing};
ghost use Rattle.pl_desk.specs.Rule.{lines_of, Grows};

use crate::board::Chronicle;
use crate::desk::{Desk, Seat, Turn};
use crate::error::OutOfMemory;
use crate::plays::{Give, Take};
use atomic_table::{Refused, Table};
use std::alloc::{AllocFailed, Global};
use std::snapshot::Snapshot;
use std::sync::Wait;

// The most lines, 2^62.
const MOST: u64 = 1 << 62;

/// A desk with its first seat. There is no memory where the list has 2^62 lines.
pub fn new<J: Chronicle>(alloc: Global, item: J) -> Result<(Desk<J>, Seat<J>), (J, OutOfMemory)>
    requires first { All (λ l. J.number_of l ≡ 0) (J.lines item) }
    ensures desk { IfOk result (λ r. desk_of r.1 ≡ id_of r.0) }
    ensures seat { IfOk result (λ r. (number r.1 ≡ 0) × (has_turn r.1 ≡ false) × (made r.1 ≡ 1) × (gathered J.lines J.number_of r.1 ≡ [])) }
    ensures item { IfOk result (λ r. (origin_of J.origin r.1 ≡ Some (J.origin item)) × (seen J.lines r.1 ≡ J.lines item) × (mine J.lines J.number_of r.1 ≡ J.lines item)) }
    ensures loads { IfOk result (λ r. (shown r.1 ≡ 0) × (met r.1 ≡ 0)) }
    ensures err { IfErr result (λ e. e.0 ≡ item) }
{
    let any = Snapshot::of(&item);
    let length = item.length();
    if length >= MOST {
        return Err((item, OutOfMemory));
    }
    let mut slots = Vec::new(alloc);
    if let Err(failed) = slots.push(Some(item)) {
        let AllocFailed { value } = failed;
        slots.destroy_empty();
        let Some(item) = value else { unreachable!() };
        return Err((item, OutOfMemory));
    }
    match Table::new(alloc, &[2 * length], slots, &any) {
        Ok((table, hold)) => Ok((Desk { table }, Seat { hold })),
        Err(Refused { mut slots }) => {
            let Some(Some(item)) = slots.pop() else {
                unreachable!()
            };
            slots.destroy_empty();
            Err((item, OutOfMemory))
        }
    }
}

// Takes the turn where the word is still as it was found.
fn try_enter<J: Chronicle>(desk: &Desk<J>, seat: &mut Seat<J>, word: u64) -> Option<Turn<J>>
    requires desk { desk_of seat.old ≡ id_of desk.now }
    requires turn { has_turn seat.old ≡ false }
    requires even { word % 2 ≡ 0 }
    ensures desk { desk_of seat.new ≡ desk_of seat.old }
    ensures none { IfNone result (place seat.new ≡ place seat.old) }
    ensures some { IfSome result (λ t. place seat.new ≡ facing t.item true (place seat.old)) }
    ensures origin { IfSome result (λ t. origin_of J.origin seat.old ≡ Some (J.origin t.item)) }
    ensures seen { IfSome result (λ t. IsPrefix (seen J.lines seat.old) (J.lines t.item)) }
    ensures mine { IfSome result (λ t. mine J.lines J.number_of seat.old ≡ lines_of J.number_of (number seat.old) (J.lines t.item)) }
    ensures few { IfSome result (λ t. length (J.lines t.item) < 2 ^ 62) }
    ensures shown { IfSome result (λ t. shown seat.old ≤ length (J.lines t.item)) }
{
    let shared = &desk.table.shared;
    if shared.compare_exchange::<Take>(&mut seat.hold, 0, word, word + 1) != word {
        return None;
    }
    let found = shared.exchange(&mut seat.hold, 0, None);
    let Some(item) = found else { unreachable!() };
    Some(Turn { item })
}

/// Waits for the turn, and takes the item.
pub fn enter<R: Wait, J: Chronicle>(desk: &Desk<J>, rt: &R, seat: &mut Seat<J>) -> Turn<J>
    requires desk { desk_of seat.old ≡ id_of desk.now }
    requires turn { has_turn seat.old ≡ false }
    ensures same { (desk_of seat.new ≡ desk_of seat.old) × (number seat.new ≡ number seat.old) × (made seat.new ≡ made seat.old) × (gathered J.lines J.number_of seat.new ≡ gathered J.lines J.number_of seat.old) }
    ensures origin { (origin_of J.origin seat.old ≡ Some (J.origin result.item)) × (origin_of J.origin seat.new ≡ origin_of J.origin seat.old) }
    ensures seen { IsPrefix (seen J.lines seat.old) (J.lines result.item) × (seen J.lines seat.new ≡ J.lines result.item) }
    ensures mine { (lines_of J.number_of (number seat.old) (J.lines result.item) ≡ mine J.lines J.number_of seat.old) × (mine J.lines J.number_of seat.new ≡ mine J.lines J.number_of seat.old) }
    ensures few { length (J.lines result.item) < 2 ^ 62 }
    ensures shown { shown seat.old ≤ length (J.lines result.item) }
    ensures loads { (shown seat.new ≡ shown seat.old) × (met seat.new ≡ met seat.old) }
    ensures turn { has_turn seat.new ≡ true }
{
    let shared = &desk.table.shared;
    for _ in rt.forever() {
        let word = shared.peek(0);
        if word % 2 == 0 {
            if let Some(turn) = try_enter(desk, seat, word) {
                return turn;
            }
        } else {
            shared.park(rt, 0, (word % (1 << 32)) as u32);
        }
    }
    unreachable!()
}

// Puts the item back, and then the turn.
fn give_back<J: Chronicle>(desk: &Desk<J>, seat: &mut Seat<J>, item: J)
    requires desk { desk_of seat.old ≡ id_of desk.now }
    requires turn { has_turn seat.old ≡ true }
    requires origin { origin_of J.origin seat.old ≡ Some (J.origin item) }
    requires added { Grows J.number_of (number seat.old) (seen J.lines seat.old) (J.lines item) }
    requires few { length (J.lines item) < 2 ^ 62 }
    ensures desk { desk_of seat.new ≡ desk_of seat.old }
    ensures place { place seat.new ≡ facing item false (place seat.old) }
{
    let length = item.length();
    let shared = &desk.table.shared;
    let empty = shared.exchange(&mut seat.hold, 0, Some(item));
    let None = empty else { unreachable!() };
    let found = shared.swap::<Give>(&mut seat.hold, 0, 2 * length);
    prove!(found % 2 == 1);
}

/// Gives the item back, and wakes all that wait.
pub fn leave<J: Chronicle>(desk: &Desk<J>, seat: &mut Seat<J>, turn: Turn<J>)
    requires desk { desk_of seat.old ≡ id_of desk.now }
    requires turn { has_turn seat.old ≡ true }
    requires origin { origin_of J.origin seat.old ≡ Some (J.origin turn.item) }
    requires added { Grows J.number_of (number seat.old) (seen J.lines seat.old) (J.lines turn.item) }
    requires few { length (J.lines turn.item) < 2 ^ 62 }
    ensures same { (desk_of seat.new ≡ desk_of seat.old) × (number seat.new ≡ number seat.old) × (made seat.new ≡ made seat.old) × (gathered J.lines J.number_of seat.new ≡ gathered J.lines J.number_of seat.old) }
    ensures origin { origin_of J.origin seat.new ≡ origin_of J.origin seat.old }
    ensures seen { seen J.lines seat.new ≡ J.lines turn.item }
    ensures mine { mine J.lines J.number_of seat.new ≡ mine J.lines J.number_of seat.old ++ drop (length (seen J.lines seat.old)) (J.lines turn.item) }
    ensures loads { (shown seat.new ≡ shown seat.old) × (met seat.new ≡ met seat.old) }
    ensures turn { has_turn seat.new ≡ false }
{
    let Turn { item } = turn;
    give_back(desk, seat, item);
    desk.table.shared.wake_all(0);
}
