ghost use Rattle.std.specs.Prelude.{◌≡◌};
ghost use Rattle.std.specs.Cmp.{on_equiv, partial_equiv_from_equiv};
ghost use Rattle.std.specs.Hash.{on_Alike, u64 as fed};
ghost use Rattle.pl_errands.specs.SameOps.{number_in, number_of, ops_alike, ops_equiv};
ghost use Rattle.pl_model.specs.Tickets.{same_op as is_same_op};

use crate::same::same_op;
use pl_events::{Op, Source, Subject};
use std::hash::{Hash, Hasher};

/// An operation, as what is kept of it is looked up. Operations about the same number hash alike; there are some two
/// dozen kinds of them.
#[derive(Clone, Copy, Debug)]
pub struct Key {
    pub op: Op,
}

impl PartialEq for Key {
    ghost eq = { λ one other. is_same_op one.op other.op };

    ghost laws = { partial_equiv_from_equiv (on_equiv (λ key. key.op) ops_equiv) };

    fn eq(&self, other: &Key) -> bool {
        same_op(self.op, other.op)
    }
}

impl Eq for Key {
    ghost laws = { on_equiv (λ key. key.op) ops_equiv };
}

impl Hash for Key {
    ghost hash_input = { λ key. fed (number_in key.op) };

    ghost respects_eq = { (on_Alike (λ key. key.op) ops_alike).fed };

    fn hash<H: Hasher>(&self, state: &mut H) {
        state.write_u64(number_of_op(self.op));
    }
}

fn number_of_subject(about: Subject) -> u64
    ensures { result ≡ number_of about }
{
    match about {
        Subject::Goal(number) | Subject::Row(number) | Subject::Pending(number) => number,
    }
}

fn number_of_op(op: Op) -> u64
    ensures { result ≡ number_in op }
{
    match op {
        Op::CheckConfig(about) | Op::Check(about) | Op::Diff(about) => number_of_subject(about),
        Op::Create(about) | Op::Update(about) => number_of_subject(about),
        Op::Delete(about) | Op::Read(about) => number_of_subject(about),
        Op::Configure(Source::Goal(number) | Source::Row(number)) => number,
        Op::Invoke(number) => number,
    }
}
