ghost use Rattle.std.specs.Prelude.{◌≡◌, slice_get};
ghost use Rattle.std.specs.Option.{option_copied};

use pl_model::Decided;
use pl_value::Rows;

/// What is decided of a goal, at the place of its number.
#[derive(Debug, Drop)]
pub struct Settled {
    pub decided: Decided,
    /// The rows that go along with its claim, where that is deleted first.
    pub chain: Rows,
}

impl Settled {
    /// The claim, with the rows that go along with it.
    pub fn into_claim(self) -> (Option<u64>, Rows)
        ensures claim { result.0 ≡ self.decided.claim }
        ensures chain { result.1 ≡ self.chain }
    {
        (self.decided.claim, self.chain)
    }
}

/// What is settled of a goal.
pub fn settled_at(settled: &[Settled], goal: u64) -> Option<&Settled>
    ensures { option_copied result ≡ slice_get settled.now goal }
{
    settled.get(goal as usize)
}
