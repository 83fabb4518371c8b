ghost use Rattle.std.specs.Prelude.{◌≡◌, ◌≤◌, [], IfSome};
ghost use Rattle.pl_world.specs.Counts.{Rose};
ghost use Rattle.pl_toy_serve.specs.Served.{IfFaulted, IfInputEnded, IsServed, IsServedTo, IsStep, OnFault, OnInputEnd, seen};

use crate::asking::asked;
use crate::ending::Ending;
use crate::speaking::{given, replied};
use pl_toy::Shelf;
use pl_world::Pipe;
use std::alloc::Global;

/// The most requests that are answered: 2^40.
const MOST_REQUESTS: u64 = 1_099_511_627_776;

/// Answers the requests that come over the pipe, each by `respond` over the shelf and before the next one is taken, until
/// there is an end. A reply that would be longer than a frame may be is the error `too long` in its place.
///
/// The statuses: 0 at the end of the input, 4 after 2^40 requests were answered, 5 where the pipe failed, 6 at a frame that
/// is no request or is cut short, and 7 where no memory was found.
pub fn serve_toy<H: Shelf, Q: Pipe>(alloc: Global, shelf: &mut H, pipe: &mut Q) -> u8
    ensures served { IsServed result (seen (H.things shelf.old) (H.faults shelf.old) (Q.given pipe.old) (Q.taken pipe.old)) (seen (H.things shelf.new) (H.faults shelf.new) (Q.given pipe.new) (Q.taken pipe.new)) }
    ensures fault_rose { result ≡ 5 → Rose (Q.faults pipe.old) (Q.faults pipe.new) }
    ensures end_rose { result ≡ 0 → Rose (Q.ends pipe.old) (Q.ends pipe.new) }
    ensures end_left_nothing { result ≡ 0 → IfSome (Q.left pipe.new) (λ rest. rest ≡ []) }
    ensures shelf_faults_never_fall { H.faults shelf.old ≤ H.faults shelf.new }
    ensures faults_never_fall { Q.faults pipe.old ≤ Q.faults pipe.new }
    ensures ends_never_fall { Q.ends pipe.old ≤ Q.ends pipe.new }
{
    serve(alloc, shelf, pipe).status()
}

fn serve<H: Shelf, Q: Pipe>(alloc: Global, shelf: &mut H, pipe: &mut Q) -> Ending
    ensures served { IsServedTo result (seen (H.things shelf.old) (H.faults shelf.old) (Q.given pipe.old) (Q.taken pipe.old)) (seen (H.things shelf.new) (H.faults shelf.new) (Q.given pipe.new) (Q.taken pipe.new)) }
    ensures fault_rose { OnFault result (Rose (Q.faults pipe.old) (Q.faults pipe.new)) }
    ensures end_rose { OnInputEnd result (Rose (Q.ends pipe.old) (Q.ends pipe.new)) }
    ensures end_left_nothing { OnInputEnd result (IfSome (Q.left pipe.new) (λ rest. rest ≡ [])) }
    ensures shelf_faults_never_fall { H.faults shelf.old ≤ H.faults shelf.new }
    ensures faults_never_fall { Q.faults pipe.old ≤ Q.faults pipe.new }
    ensures ends_never_fall { Q.ends pipe.old ≤ Q.ends pipe.new }
{
    for _ in 0..MOST_REQUESTS {
        if let Err(ending) = serve_one(alloc, shelf, pipe) {
            return ending;
        }
    }
    Ending::Enough
}

// One round: a request is taken, carried out and answered.
fn serve_one<H: Shelf, Q: Pipe>(alloc: Global, shelf: &mut H, pipe: &mut Q) -> Result<(), Ending>
    ensures step { IsStep result (seen (H.things shelf.old) (H.faults shelf.old) (Q.given pipe.old) (Q.taken pipe.old)) (seen (H.things shelf.new) (H.faults shelf.new) (Q.given pipe.new) (Q.taken pipe.new)) }
    ensures fault_rose { IfFaulted result (Rose (Q.faults pipe.old) (Q.faults pipe.new)) }
    ensures end_rose { IfInputEnded result (Rose (Q.ends pipe.old) (Q.ends pipe.new)) }
    ensures end_left_nothing { IfInputEnded result (IfSome (Q.left pipe.new) (λ rest. rest ≡ [])) }
    ensures shelf_faults_never_fall { H.faults shelf.old ≤ H.faults shelf.new }
    ensures faults_never_fall { Q.faults pipe.old ≤ Q.faults pipe.new }
    ensures ends_never_fall { Q.ends pipe.old ≤ Q.ends pipe.new }
{
    let request = asked(alloc, pipe)?;
    let body = replied(alloc, shelf, request)?;
    given(alloc, pipe, body.as_slice())
}
