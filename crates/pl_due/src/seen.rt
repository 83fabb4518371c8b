ghost use Rattle.std.proofs.Props.{props};
ghost use Rattle.std.specs.Prelude.{◌≡◌, Bool};
ghost use Rattle.pl_columns.specs.Read.{known_by};
ghost use Rattle.pl_lemmas.specs.Words.{some_passes};
ghost use Rattle.pl_model.specs.Decisions.{Turn as SeenTurn};
ghost use Rattle.pl_model.specs.Due.{request_numbers};
ghost use Rattle.pl_model.specs.Known.{is_over, next_turn as turn_next};
ghost use Rattle.pl_ready.specs.Keepers.{AreKeepers};
ghost use Rattle.pl_turns.specs.Seen.{seen_turn};

use pl_columns::Columns;
use pl_turns::{Turn, next_turn};

/// The columns of a run's history, with what is found out once for all its work.
#[derive(Clone, Copy)]
pub struct Seen<'a> {
    pub columns: &'a Columns,
    /// How many resources count against the limit.
    pub count: u64,
    /// The numbers of the told requests, in order.
    pub requests: &'a [u64],
    /// Whether the host has ended and every goal is recorded.
    pub over: bool,
    /// The turn of the first goal that is not decided.
    pub turn: Option<Turn<'a>>,
    ghost is_over: { over ≡ is_over (known_by columns.now) },
    ghost is_turn: { (test : SeenTurn → Bool) → some_passes (λ turn. test (seen_turn turn)) turn ≡ some_passes test (turn_next (known_by columns.now)) },
    ghost are_requests: { requests.now ≡ request_numbers (known_by columns.now) },
    ghost are_keepers: { AreKeepers (known_by columns.now) } by { Prim.hlevel props },
}

impl<'a> Seen<'a> {
    /// Looks at the columns. Its time grows with the number of goals.
    pub fn new(columns: &'a Columns, requests: &'a [u64], count: u64) -> Seen<'a>
        requires requests { requests.now ≡ request_numbers (known_by columns.now) }
        requires keepers { AreKeepers (known_by columns.now) }
        ensures columns { result.columns.now ≡ columns.now }
        ensures count { result.count ≡ count }
    {
        columns.requests.have_paths();
        let over = columns.is_over();
        let turn = next_turn(&columns.requests, &columns.errands, &columns.claims);
        Seen {
            columns,
            count,
            requests,
            over,
            turn,
        }
    }
}
