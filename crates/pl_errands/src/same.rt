ghost use Rattle.std.specs.Prelude.{◌≡◌};
ghost use Rattle.pl_model.specs.Tickets as spec;

use pl_events::{Op, Source, Subject};

fn same_subject(first: Subject, second: Subject) -> bool
    ensures { result ≡ spec.same_subject first second }
{
    match (first, second) {
        (Subject::Goal(first), Subject::Goal(second)) => first == second,
        (Subject::Row(first), Subject::Row(second)) => first == second,
        (Subject::Pending(first), Subject::Pending(second)) => first == second,
        _ => false,
    }
}

/// Whether two providers are the same.
pub fn same_source(first: Source, second: Source) -> bool
    ensures { result ≡ spec.same_source first second }
{
    match (first, second) {
        (Source::Goal(first), Source::Goal(second)) => first == second,
        (Source::Row(first), Source::Row(second)) => first == second,
        _ => false,
    }
}

/// Whether two operations are the same.
pub fn same_op(first: Op, second: Op) -> bool
    ensures { result ≡ spec.same_op first second }
{
    match (first, second) {
        (Op::CheckConfig(first), Op::CheckConfig(second)) => same_subject(first, second),
        (Op::Configure(first), Op::Configure(second)) => same_source(first, second),
        (Op::Check(first), Op::Check(second)) => same_subject(first, second),
        (Op::Diff(first), Op::Diff(second)) => same_subject(first, second),
        (Op::Create(first), Op::Create(second)) => same_subject(first, second),
        (Op::Update(first), Op::Update(second)) => same_subject(first, second),
        (Op::Delete(first), Op::Delete(second)) => same_subject(first, second),
        (Op::Read(first), Op::Read(second)) => same_subject(first, second),
        (Op::Invoke(first), Op::Invoke(second)) => first == second,
        _ => false,
    }
}

/// The provider that an operation makes a lane for.
pub fn source_begun(op: Op) -> Option<Source>
    ensures { result ≡ spec.source_begun op }
{
    match op {
        Op::CheckConfig(Subject::Goal(goal)) => Some(Source::Goal(goal)),
        Op::Configure(provider) => Some(provider),
        _ => None,
    }
}
