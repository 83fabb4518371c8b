//! One thread that takes turns from two seats.
ghost use Rattle.std.specs.Prelude.{◌≡◌, ℕ, ◌<◌, false, List, [], IfOk, IfErr, All};
ghost use Rattle.pl_desk.specs.Seats.{id_of, desk_of, number, has_turn, made};
ghost use Rattle.pl_desk.specs.Posed.{Has};
ghost use Rattle.pl_desk_turns.specs.Counts.{taken_in, title_at};
ghost use Rattle.pl_desk_turns.specs.declared.notes.Note.{Note};

use crate::notes::Notes;
use crate::turns::take_turns;
use pl_desk::{Desk, OutOfMemory, Seat, close, join, new, split};
use std::alloc::Global;
use std::sync::Wait;

// Of two seats the first takes in the other.
fn with_second(desk: &Desk<Notes>, mut first: Seat<Notes>, second: Seat<Notes>) -> Seat<Notes>
    requires desk { (desk_of first ≡ id_of desk.now) × (desk_of second ≡ id_of desk.now) }
    requires turn { (has_turn first ≡ false) × (has_turn second ≡ false) }
    requires numbers { (number first ≡ 0) × (number second ≡ 1) × (made first ≡ 2) }
    ensures seat { (desk_of result ≡ id_of desk.now) × (has_turn result ≡ false) × (number result ≡ 0) × (made result ≡ 2) }
    ensures gathered { (n : ℕ) → 0 < n → n < 2 → (ls : List Note) × Has (taken_in result) n ls }
    ensures title { title_at result ≡ title_at first }
{
    join(desk, &mut first, second);
    first
}

/// A second seat takes so many turns, and the first seat takes it in.
pub fn one_thread<R: Wait>(
    rt: &R,
    alloc: Global,
    notes: Notes,
    count: u64,
) -> Result<Notes, (Notes, OutOfMemory)>
    requires none { notes.notes.items ≡ [] }
    ensures numbers { IfOk result (λ r. All (λ n. n.seat < 2) r.notes.items) }
    ensures title { IfOk result (λ r. r.title ≡ notes.title) }
    ensures err { IfErr result (λ e. e.0 ≡ notes) }
{
    let (desk, mut first) = new(alloc, notes)?;
    let Ok(mut second) = split(&desk, &mut first) else {
        unreachable!()
    };
    take_turns(&desk, rt, &mut second, 1, count);
    let first = with_second(&desk, first, second);
    Ok(close(desk, first))
}
