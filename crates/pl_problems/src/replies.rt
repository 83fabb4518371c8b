ghost use Rattle.std.specs.Prelude.{◌≡◌, if◌then◌else◌, IfOk, None, option_map};
ghost use Rattle.std.specs.Option.{option_copied};
ghost use Rattle.pl_columns.specs.Read.{known_by};
ghost use Rattle.pl_decide.specs.declared.problem.Problem.TheVariants as problem;
ghost use Rattle.pl_model.specs.Problems as spec;
ghost use Rattle.pl_model.specs.Rows as rows;

use pl_columns::Columns;
use pl_decide::Problem;
use pl_events::{Op, Reply, Subject};
use pl_state::Pending;
use pl_urn::Urn;
use pl_value::OutOfMemory;
use std::alloc::Global;

/// The problem that a reply to an operation is, if it is one.
pub fn problem_of_reply(
    _alloc: Global,
    columns: &Columns,
    op: Op,
    reply: &Reply,
) -> Result<Option<Problem>, OutOfMemory>
    ensures { IfOk result (λ found. found ≡ spec.problem_of_reply (known_by columns.now) op reply.now) }
{
    match reply {
        Reply::CheckFailed(_) => check_failed(columns, op),
        Reply::Error(text) => Ok(Some(Problem::ErrorReply(text.copy()?))),
        Reply::MadePartly { .. } => partial_reply(columns, op),
        Reply::ChangedPartly { .. } => partial_reply(columns, op),
        Reply::Gone => gone(columns, op),
        _ => Ok(None),
    }
}

fn check_failed(columns: &Columns, op: Op) -> Result<Option<Problem>, OutOfMemory>
    ensures { IfOk result (λ found. found ≡ option_map problem.CheckFailed (spec.urn_of_op (known_by columns.now) op)) }
{
    match urn_of_op(columns, op)? {
        None => Ok(None),
        Some(urn) => Ok(Some(Problem::CheckFailed(urn))),
    }
}

fn partial_reply(columns: &Columns, op: Op) -> Result<Option<Problem>, OutOfMemory>
    ensures { IfOk result (λ found. found ≡ option_map problem.PartialReply (spec.urn_of_op (known_by columns.now) op)) }
{
    match urn_of_op(columns, op)? {
        None => Ok(None),
        Some(urn) => Ok(Some(Problem::PartialReply(urn))),
    }
}

/// Nothing is there: to an import that is a problem, and to the read of a row none.
fn gone(columns: &Columns, op: Op) -> Result<Option<Problem>, OutOfMemory>
    ensures { IfOk result (λ found. found
        ≡ (if spec.reads_row op then None else option_map problem.ImportMissing (spec.urn_of_op (known_by columns.now) op))) }
{
    if reads_row(op) {
        return Ok(None);
    }
    match urn_of_op(columns, op)? {
        None => Ok(None),
        Some(urn) => Ok(Some(Problem::ImportMissing(urn))),
    }
}

/// Whether an operation reads a row of the state at the start.
fn reads_row(op: Op) -> bool
    ensures { result ≡ spec.reads_row op }
{
    matches!(op, Op::Read(Subject::Row(_)))
}

/// The URN of what an operation is about, in memory of its own.
fn urn_of_op(columns: &Columns, op: Op) -> Result<Option<Urn>, OutOfMemory>
    ensures { IfOk result (λ urn. urn ≡ spec.urn_of_op (known_by columns.now) op) }
{
    let Some(subject) = subject_of(op) else {
        return Ok(None);
    };
    match urn_of_subject(columns, subject) {
        None => Ok(None),
        Some(urn) => Ok(Some(urn.copy()?)),
    }
}

fn subject_of(op: Op) -> Option<Subject>
    ensures { result ≡ spec.subject_of op }
{
    match op {
        Op::CheckConfig(about) => Some(about),
        Op::Configure(_) => None,
        Op::Check(about) => Some(about),
        Op::Diff(about) => Some(about),
        Op::Create(about) => Some(about),
        Op::Update(about) => Some(about),
        Op::Delete(about) => Some(about),
        Op::Read(about) => Some(about),
        Op::Invoke(_) => None,
    }
}

fn urn_of_subject(columns: &Columns, subject: Subject) -> Option<&Urn>
    ensures { option_copied result ≡ spec.urn_of_subject (known_by columns.now) subject }
{
    match subject {
        Subject::Goal(goal) => match columns.goal(goal) {
            None => None,
            Some(goal) => Some(&goal.urn),
        },
        Subject::Row(row) => match columns.row(row) {
            None => None,
            Some(entry) => Some(&entry.urn),
        },
        Subject::Pending(at) => match pending_at(columns, at) {
            None => None,
            Some(pending) => Some(&pending.entry.urn),
        },
    }
}

/// A pending operation of the state at the start.
fn pending_at(columns: &Columns, at: u64) -> Option<&Pending>
    ensures { option_copied result ≡ rows.pending_at (known_by columns.now) at }
{
    columns.run().base.pending.get(at as usize)
}
