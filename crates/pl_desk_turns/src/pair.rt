//! Two threads at a desk of any item.
ghost use Rattle.std.specs.Prelude.{◌≡◌, false, length, ◌^◌, ◌<◌};
ghost use Rattle.pl_desk.specs.Seats.{id_of, desk_of, number, has_turn, mine};

use pl_desk::{Chronicle, Desk, Seat, enter, leave};
use std::sync::Wait;
use std::thread;
use std::thread::Threads;

// A turn that adds nothing.
fn look<R: Wait, J: Chronicle>(desk: &Desk<J>, rt: &R, mut seat: Seat<J>) -> Seat<J>
    requires desk { desk_of seat ≡ id_of desk.now }
    requires turn { has_turn seat ≡ false }
    ensures seat { (desk_of result ≡ desk_of seat) × (has_turn result ≡ false) × (number result ≡ number seat) }
    ensures mine { mine J.lines J.number_of result ≡ mine J.lines J.number_of seat }
{
    let turn = enter(desk, rt, &mut seat);
    leave(desk, &mut seat, turn);
    seat
}

/// Each seat takes a turn that adds nothing.
pub fn look_both<R: Threads + Wait + Sync, J: Chronicle + Send>(
    rt: &R,
    desk: &Desk<J>,
    first: Seat<J>,
    second: Seat<J>,
) -> (Seat<J>, Seat<J>)
    requires desk { (desk_of first ≡ id_of desk.now) × (desk_of second ≡ id_of desk.now) }
    requires turn { (has_turn first ≡ false) × (has_turn second ≡ false) }
    ensures first { (desk_of result.0 ≡ id_of desk.now) × (has_turn result.0 ≡ false) × (number result.0 ≡ number first) }
    ensures second { (desk_of result.1 ≡ id_of desk.now) × (has_turn result.1 ≡ false) × (number result.1 ≡ number second) }
    ensures mine { (mine J.lines J.number_of result.0 ≡ mine J.lines J.number_of first) × (mine J.lines J.number_of result.1 ≡ mine J.lines J.number_of second) }
{
    thread::join(
        rt,
        || -> Seat<J>
            requires { (desk_of first ≡ id_of desk.now) × (has_turn first ≡ false) }
        { look(desk, rt, first) },
        || -> Seat<J>
            requires { (desk_of second ≡ id_of desk.now) × (has_turn second ≡ false) }
        { look(desk, rt, second) },
    )
}
