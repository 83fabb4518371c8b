ghost use Rattle.std.specs.Prelude.{◌≡◌, Some};
ghost use Rattle.pl_lemmas.specs.Words.{numbered};
ghost use Rattle.pl_options.specs.Refused.{HasPaths};

use pl_claims::Claims;
use pl_errands::Errands;
use pl_requests::Requests;
use pl_state::Goal;

/// The first goal that is not decided, with what is known of the run.
#[derive(Clone, Copy)]
pub struct Turn<'a> {
    pub requests: &'a Requests,
    pub errands: &'a Errands,
    pub claims: &'a Claims,
    /// The goal's number.
    pub number: u64,
    pub goal: &'a Goal,
    /// The row that the goal claims.
    pub claim: Option<u64>,
    ghost is_goal: { numbered requests.now.goals number ≡ Some goal.now },
    ghost has_paths: { HasPaths goal.now },
}
