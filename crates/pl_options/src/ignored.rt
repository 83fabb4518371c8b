ghost use Rattle.std.specs.Prelude.{◌≡◌, IfOk, true};
ghost use Rattle.pl_path.specs.Grammar.{is_path};
ghost use Rattle.pl_path.specs.Reset.{reset_at};
ghost use Rattle.pl_options.specs.Ignored as spec;
ghost use Rattle.pl_options.specs.Refused.{HasPaths};

use pl_path::{PathFault, reset_to_old};
use pl_state::Goal;
use pl_value::{Fields, OutOfMemory};
use std::alloc::Global;

/// The goal's inputs, set back to the old ones at each path whose changes it ignores.
#[tactic(auto, using(std::proofs::lemmas::List::Sums::fold_more), unfolding(crate::specs::Ignored::with_ignored))]
pub fn with_ignored(alloc: Global, goal: &Goal, old: &Fields) -> Result<Fields, OutOfMemory>
    requires { HasPaths goal.now }
    ensures { IfOk result (λ fields. fields ≡ spec.with_ignored goal.now old.now) }
{
    let mut fields = goal.inputs.copy(alloc)?;
    for text in goal.ignore_changes.as_slice() {
        fields = set_back(alloc, text.as_str(), fields, old)?;
    }
    Ok(fields)
}

#[tactic(auto, using(crate::proofs::Readers::path_is_not_refused, crate::proofs::Readers::reset_is_along))]
fn set_back(alloc: Global, text: &str, fields: Fields, old: &Fields) -> Result<Fields, OutOfMemory>
    requires { is_path text.now ≡ true }
    ensures { IfOk result (λ made. made ≡ reset_at text.now fields old.now) }
{
    match pl_path::parse(alloc, text) {
        Ok(path) => reset_to_old(alloc, &path, fields, old).map_err(|left| left.1),
        Err(PathFault::OutOfMemory) => Err(OutOfMemory),
        Err(PathFault::BadPath(_)) => unreachable!(),
    }
}
