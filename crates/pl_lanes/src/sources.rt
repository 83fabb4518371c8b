ghost use Rattle.std.specs.Prelude.{◌≡◌, option_and_then, option_map};
ghost use Rattle.pl_columns.specs.Read.{known_by};
ghost use Rattle.pl_events.specs.declared.operation.Op.TheVariants as op;
ghost use Rattle.pl_events.specs.declared.operation.Source.TheVariants as source;
ghost use Rattle.pl_model.specs.Due as spec;
ghost use Rattle.pl_model.specs.Known.{asked_at};

use pl_columns::Columns;
use pl_events::{Op, Source, Subject};
use pl_old::{source_of_goal, source_of_pending, source_of_row};

fn source_of_subject(columns: &Columns, about: Subject) -> Option<Source>
    ensures { result ≡ spec.source_of_subject (known_by columns.now) about }
{
    match about {
        Subject::Goal(number) => source_of_goal(columns, number),
        Subject::Row(row) => source_of_row(columns, row),
        Subject::Pending(at) => source_of_pending(columns, at),
    }
}

/// The provider whose inputs an operation checks.
fn source_of_check(columns: &Columns, about: Subject) -> Option<Source>
    ensures { result ≡ spec.source_of_op (known_by columns.now) (op.CheckConfig about) }
{
    match about {
        Subject::Goal(number) => Some(Source::Goal(number)),
        _ => None,
    }
}

/// The provider that an invoke is sent to.
fn source_of_invoke(columns: &Columns, n: u64) -> Option<Source>
    ensures { result ≡ option_map source.Goal (option_and_then (λ asked. asked.about) (asked_at (known_by columns.now) n)) }
{
    let provider = columns.asked(n)?.about?;
    Some(Source::Goal(provider))
}

/// The provider whose lanes an operation is sent to.
pub fn source_of_op(columns: &Columns, op: Op) -> Option<Source>
    ensures { result ≡ spec.source_of_op (known_by columns.now) op }
{
    match op {
        Op::CheckConfig(about) => source_of_check(columns, about),
        Op::Configure(provider) => Some(provider),
        Op::Check(about) => source_of_subject(columns, about),
        Op::Diff(about) => source_of_subject(columns, about),
        Op::Create(about) => source_of_subject(columns, about),
        Op::Update(about) => source_of_subject(columns, about),
        Op::Delete(about) => source_of_subject(columns, about),
        Op::Read(about) => source_of_subject(columns, about),
        Op::Invoke(n) => source_of_invoke(columns, n),
    }
}
