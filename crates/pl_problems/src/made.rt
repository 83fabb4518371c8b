ghost use Rattle.std.specs.Prelude.{◌≡◌, IfOk, is_some, length, option_and_then};
ghost use Rattle.pl_columns.specs.Read.{history_by, known_by};
ghost use Rattle.pl_events.specs.declared.event.Request.{Request};
ghost use Rattle.pl_events.specs.declared.event.What.TheVariants.{Answered, Told};
ghost use Rattle.pl_lemmas.specs.Words.{first_in};
ghost use Rattle.pl_model.specs.Known.{Known, is_over};
ghost use Rattle.pl_model.specs.Problems as spec;
ghost use Rattle.pl_model.specs.Requests as requests;
ghost use Rattle.pl_model.specs.Tickets.{closed_by};
ghost use Rattle.pl_problems.specs.Before.{IsBeforeReply};

use crate::decisions::{missing_providers, refusals};
use crate::ending::problems_by_end;
use crate::replies::problem_of_reply;
use crate::words::push_found;
use pl_columns::Columns;
use pl_decide::Problem;
use pl_events::Reply;
use pl_model::Fate;
use pl_value::OutOfMemory;
use std::alloc::Global;

/// The problems that a told request makes by its fate and by what is decided since there were `before` decisions. The
/// columns are those after the event.
pub fn told_problems(
    alloc: Global,
    columns: &Columns,
    before: u64,
    fate: &Fate,
) -> Result<Vec<Problem>, OutOfMemory>
    ensures { IfOk result (λ problems. (earlier : Known) (request : Request)
        → length earlier.decided ≡ before
        → requests.fate_of earlier request ≡ fate.now
        → problems.items ≡ spec.made_problems earlier (known_by columns.now) (Told request)) }
{
    let mut problems = Vec::new(alloc);
    let refused = problem_of_fate(alloc, fate)?;
    push_found(&mut problems, refused)?;
    let mut decided = refusals(alloc, columns, before)?;
    problems.append(&mut decided)?;
    let mut missing = missing_providers(alloc, columns, before)?;
    problems.append(&mut missing)?;
    Ok(problems)
}

fn problem_of_fate(alloc: Global, fate: &Fate) -> Result<Option<Problem>, OutOfMemory>
    ensures { IfOk result (λ found. found ≡ spec.problem_of_fate fate.now) }
{
    match fate {
        Fate::Refused(problem) => Ok(Some(problem.copy(alloc)?)),
        Fate::Halted | Fate::Accepted => Ok(None),
    }
}

/// The problems that a reply makes, of itself, by what is decided since there were `before` decisions, and of what is
/// left where the run is over by it. `was_over` says whether the run was over before. The columns are those after the
/// event, but for the problems, which are those before it.
pub fn answered_problems(
    alloc: Global,
    columns: &Columns,
    before: u64,
    was_over: bool,
    ticket: u64,
    reply: &Reply,
) -> Result<Vec<Problem>, OutOfMemory>
    ensures { IfOk result (λ problems. (earlier : Known)
        → IsBeforeReply before earlier (known_by columns.now)
        → is_over earlier ≡ was_over
        → problems.items ≡ spec.problems_at earlier (known_by columns.now) (Answered ticket reply.now)) }
{
    let mut problems = reply_problems(alloc, columns, before, ticket, reply)?;
    let makes = has_any(problems.as_slice());
    let mut left = problems_by_end(alloc, columns, was_over, makes)?;
    problems.append(&mut left)?;
    Ok(problems)
}

/// Whether there is a problem.
fn has_any(problems: &[Problem]) -> bool
    ensures { result ≡ is_some (first_in problems.now) }
{
    match problems.first() {
        None => false,
        Some(_) => true,
    }
}

/// The problems that a reply makes of itself and by what is decided.
fn reply_problems(
    alloc: Global,
    columns: &Columns,
    before: u64,
    ticket: u64,
    reply: &Reply,
) -> Result<Vec<Problem>, OutOfMemory>
    ensures { IfOk result (λ problems. (earlier : Known)
        → IsBeforeReply before earlier (known_by columns.now)
        → problems.items ≡ spec.made_problems earlier (known_by columns.now) (Answered ticket reply.now)) }
{
    let mut problems = refusals(alloc, columns, before)?;
    let own = own_problem(alloc, columns, ticket, reply)?;
    push_found(&mut problems, own)?;
    let mut missing = missing_providers(alloc, columns, before)?;
    problems.append(&mut missing)?;
    Ok(problems)
}

/// The problem that the reply to a ticket is.
fn own_problem(
    alloc: Global,
    columns: &Columns,
    ticket: u64,
    reply: &Reply,
) -> Result<Option<Problem>, OutOfMemory>
    ensures { IfOk result (λ found. found
        ≡ option_and_then (spec.problem_of_closed (known_by columns.now)) (closed_by (history_by columns.now) (Answered ticket reply.now))) }
{
    match columns.errand(ticket) {
        None => Ok(None),
        Some(errand) => problem_of_reply(alloc, columns, errand.op, reply),
    }
}
