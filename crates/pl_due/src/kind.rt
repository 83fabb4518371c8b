ghost use Rattle.std.specs.Prelude.{◌≡◌};
ghost use Rattle.pl_due.specs.Now as spec;

use pl_events::{Op, Subject};

/// The kinds of operations that are sent to a lane which is there, invokes aside.
#[derive(Clone, Copy)]
pub enum Kind {
    Delete,
    Check,
    Diff,
    Create,
    Update,
    ReadGoal,
    ReadRow,
    Import,
}

/// The operation of a kind that is about a number.
pub fn op_at(kind: Kind, number: u64) -> Op
    ensures { result ≡ spec.op_at kind number }
{
    match kind {
        Kind::Delete => Op::Delete(Subject::Row(number)),
        Kind::Check => Op::Check(Subject::Goal(number)),
        Kind::Diff => Op::Diff(Subject::Goal(number)),
        Kind::Create => Op::Create(Subject::Goal(number)),
        Kind::Update => Op::Update(Subject::Goal(number)),
        Kind::ReadGoal => Op::Read(Subject::Goal(number)),
        Kind::ReadRow => Op::Read(Subject::Row(number)),
        Kind::Import => Op::Read(Subject::Pending(number)),
    }
}
