ghost use Rattle.std.specs.Prelude.{◌≡◌, IfOk, IfSome, option_map};
ghost use Rattle.pl_model.specs.Claims.{chain_of_goal};
ghost use Rattle.pl_turns.specs.Next as spec;
ghost use Rattle.pl_turns.specs.Seen.{seen_turn};

use crate::decided::Settled;
use crate::turn::Turn;
use pl_claims::Claims;
use pl_errands::Errands;
use pl_requests::Requests;
use pl_value::OutOfMemory;
use std::alloc::Global;

/// The turn of the first goal that is not decided.
pub fn next_turn<'a>(
    requests: &'a Requests,
    errands: &'a Errands,
    claims: &'a Claims,
) -> Option<Turn<'a>>
    ensures { option_map seen_turn result ≡ spec.next_turn requests.now errands.now claims.now }
{
    requests.have_paths();
    let number = claims.count();
    match requests.goal(number) {
        None => None,
        Some(goal) => Some(Turn {
            requests,
            errands,
            claims,
            number,
            goal,
            claim: claims.claim_for(goal),
        }),
    }
}

/// What is decided of the first goal that is not decided, once its check and its diff have come.
pub fn decided_next(
    alloc: Global,
    requests: &Requests,
    errands: &Errands,
    claims: &Claims,
) -> Result<Option<Settled>, OutOfMemory>
    ensures decided { IfOk result (λ made. option_map (λ one. one.decided) made ≡ spec.next_decided requests.now errands.now claims.now) }
    ensures chain { IfOk result (λ made. IfSome made (λ one. one.chain ≡ chain_of_goal claims.now.run one.decided)) }
{
    match next_turn(requests, errands, claims) {
        None => Ok(None),
        Some(turn) => turn.decided(alloc),
    }
}
