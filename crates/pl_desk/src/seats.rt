//! More seats, and the end of a desk.
ghost use Rattle.std.specs.Prelude.{◌≡◌, ℕ, ◌+◌, ◌/◌, ◌%◌, ◌^◌, ◌<◌, ◌≤◌, ◌⊎◌, false, List, [], ◌∷◌, All, Some, IsOk, IfOk};
ghost use mathlib.Core.List.{IsPrefix};
ghost use Rattle.pl_desk.specs.Seats.{id_of, desk_of, place, number, has_turn, made, origin_of, seen, mine, gathered, shown, met};
ghost use Rattle.pl_desk.specs.Posed.{longer, unshown, Has};
ghost use Rattle.pl_desk.specs.Rule.{lines_of};

use crate::board::Chronicle;
use crate::desk::{Desk, Seat};
use crate::error::OutOfMemory;
use crate::plays::{Cut, Glue, Know, Learn, Look};
use std::sync::Wait;

/// Another seat, which has seen what the first seat saw.
pub fn split<J: Chronicle>(desk: &Desk<J>, seat: &mut Seat<J>) -> Result<Seat<J>, OutOfMemory>
    requires desk { desk_of seat.old ≡ id_of desk.now }
    requires turn { has_turn seat.old ≡ false }
    requires first { number seat.old ≡ 0 }
    requires room { made seat.old < 2 ^ 32 }
    ensures given { IsOk result }
    ensures made { made seat.new ≡ made seat.old + 1 }
    ensures same { (desk_of seat.new ≡ desk_of seat.old) × (number seat.new ≡ number seat.old) × (has_turn seat.new ≡ false) × (origin_of J.origin seat.new ≡ origin_of J.origin seat.old) }
    ensures lines { (seen J.lines seat.new ≡ seen J.lines seat.old) × (mine J.lines J.number_of seat.new ≡ mine J.lines J.number_of seat.old) × (gathered J.lines J.number_of seat.new ≡ gathered J.lines J.number_of seat.old) }
    ensures loads { (shown seat.new ≡ shown seat.old) × (met seat.new ≡ met seat.old) }
    ensures number { IfOk result (λ other. number other ≡ made seat.old) }
    ensures other { IfOk result (λ other. (desk_of other ≡ desk_of seat.old) × (has_turn other ≡ false) × (origin_of J.origin other ≡ origin_of J.origin seat.old) × (seen J.lines other ≡ seen J.lines seat.old)) }
    ensures mine { IfOk result (λ other. mine J.lines J.number_of other ≡ []) }
    ensures unshown { IfOk result (λ other. (shown other ≡ 0) × (met other ≡ 0)) }
{
    let shared = &desk.table.shared;
    shared.load::<Know>(&mut seat.hold, 0);
    let hold = shared.split_seat::<Cut>(&mut seat.hold);
    Ok(Seat { hold })
}

// The word, which shows how many lines the list has, and whether the turn is out.
fn look<J: Chronicle>(desk: &Desk<J>, seat: &mut Seat<J>) -> u64
    requires desk { desk_of seat.old ≡ id_of desk.now }
    requires turn { has_turn seat.old ≡ false }
    ensures desk { desk_of seat.new ≡ desk_of seat.old }
    ensures place { unshown (place seat.new) ≡ unshown (place seat.old) }
    ensures shown { (shown seat.new ≡ result / 2) × (shown seat.old ≤ shown seat.new) }
    ensures met { met seat.new ≡ met seat.old + result % 2 }
{
    desk.table.shared.load::<Look>(&mut seat.hold, 0)
}

/// Waits until the list has more than `length` lines, or the turn is out.
pub fn rest<R: Wait, J: Chronicle>(desk: &Desk<J>, rt: &R, seat: &mut Seat<J>, length: u64)
    requires desk { desk_of seat.old ≡ id_of desk.now }
    requires turn { has_turn seat.old ≡ false }
    ensures found { (length < shown seat.new) ⊎ (met seat.old < met seat.new) }
    ensures loads { (shown seat.old ≤ shown seat.new) × (met seat.old ≤ met seat.new) }
    ensures same { (desk_of seat.new ≡ desk_of seat.old) × (number seat.new ≡ number seat.old) × (has_turn seat.new ≡ false) × (made seat.new ≡ made seat.old) × (origin_of J.origin seat.new ≡ origin_of J.origin seat.old) }
    ensures lines { (seen J.lines seat.new ≡ seen J.lines seat.old) × (mine J.lines J.number_of seat.new ≡ mine J.lines J.number_of seat.old) × (gathered J.lines J.number_of seat.new ≡ gathered J.lines J.number_of seat.old) }
{
    for _ in rt.forever() {
        let word = look(desk, seat);
        if word % 2 == 1 || word / 2 > length {
            return;
        }
        desk.table.shared.park(rt, 0, (word % (1 << 32)) as u32);
    }
    unreachable!()
}

/// Takes in another seat.
pub fn join<J: Chronicle>(desk: &Desk<J>, seat: &mut Seat<J>, other: Seat<J>)
    requires desk { (desk_of seat.old ≡ id_of desk.now) × (desk_of other ≡ id_of desk.now) }
    requires turn { (has_turn seat.old ≡ false) × (has_turn other ≡ false) }
    requires first { number seat.old ≡ 0 }
    ensures same { (desk_of seat.new ≡ desk_of seat.old) × (number seat.new ≡ number seat.old) × (made seat.new ≡ made seat.old) × (has_turn seat.new ≡ false) × (origin_of J.origin seat.new ≡ origin_of J.origin seat.old) }
    ensures seen { seen J.lines seat.new ≡ longer (seen J.lines seat.old) (seen J.lines other) }
    ensures begins { IsPrefix (seen J.lines seat.old) (seen J.lines seat.new) × IsPrefix (seen J.lines other) (seen J.lines seat.new) }
    ensures mine { mine J.lines J.number_of seat.new ≡ mine J.lines J.number_of seat.old }
    ensures loads { (shown seat.new ≡ shown seat.old) × (met seat.new ≡ met seat.old) }
    ensures gathered { gathered J.lines J.number_of seat.new ≡ (number other, mine J.lines J.number_of other) ∷ gathered J.lines J.number_of seat.old }
{
    let Seat { hold } = other;
    let shared = &desk.table.shared;
    shared.join_seat::<Glue>(&mut seat.hold, hold);
    shared.load::<Learn>(&mut seat.hold, 0);
}

/// The item, once every other seat was taken in.
pub fn close<J: Chronicle>(desk: Desk<J>, seat: Seat<J>) -> J
    requires desk { desk_of seat ≡ id_of desk }
    requires turn { has_turn seat ≡ false }
    requires first { number seat ≡ 0 }
    requires all { (n : ℕ) → 0 < n → n < made seat → (ls : List J.Line) × Has (gathered J.lines J.number_of seat) n ls }
    ensures origin { origin_of J.origin seat ≡ Some (J.origin result) }
    ensures numbers { All (λ l. J.number_of l < made seat) (J.lines result) }
    ensures seen { IsPrefix (seen J.lines seat) (J.lines result) }
    ensures mine { lines_of J.number_of 0 (J.lines result) ≡ mine J.lines J.number_of seat }
    ensures others { (n : ℕ) (ls : List J.Line) → Has (gathered J.lines J.number_of seat) n ls → lines_of J.number_of n (J.lines result) ≡ ls }
{
    let Seat { hold } = seat;
    let mut closed = desk.into_table().close_with(hold);
    let found = closed.take(0);
    closed.free();
    let Some(item) = found else { unreachable!() };
    item
}
