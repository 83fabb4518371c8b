ghost use Rattle.std.specs.Prelude.{◌≡◌, ◌&&◌, ℕ, [], if◌then◌else◌, IfOk, is_some, not, Option};
ghost use Rattle.pl_columns.specs.Read.{known_by};
ghost use Rattle.pl_events.specs.declared.event.What.{What};
ghost use Rattle.pl_events.specs.declared.event.What.TheVariants.{HostGone, Kept};
ghost use Rattle.pl_lemmas.specs.Words.{first_in};
ghost use Rattle.pl_model.specs.Known.{Known, has_problem, is_over};
ghost use Rattle.pl_model.specs.Problems as spec;
ghost use Rattle.pl_problems.specs.Before.{IsBeforeEnd};

use crate::ends::{protected_row, unprovided_row};
use crate::holding::holding_row;
use crate::limits::unpermitted_row;
use crate::words::three_found;
use pl_columns::Columns;
use pl_decide::Problem;
use pl_events::HostEnd;
use pl_model::Mode;
use pl_value::OutOfMemory;
use std::alloc::Global;

/// The problems of what is left when the host has ended and every goal is recorded; `over` says whether that is so.
pub fn end_problems(
    alloc: Global,
    columns: &Columns,
    over: bool,
) -> Result<Vec<Problem>, OutOfMemory>
    requires over { over ≡ is_over (known_by columns.now) }
    ensures { IfOk result (λ problems. problems.items ≡ spec.end_problems (known_by columns.now)) }
{
    let protected = protected_row(columns, over)?;
    let unprovided = unprovided_row(columns, over)?;
    let limited = limit_problem(columns, over)?;
    three_found(alloc, protected, unprovided, limited)
}

/// That the limits leave a row alone, which a run that registers goals would have to delete, and which keeps another from
/// going in a run that deletes everything.
fn limit_problem(columns: &Columns, over: bool) -> Result<Option<Problem>, OutOfMemory>
    requires { over ≡ is_over (known_by columns.now) }
    ensures { IfOk result (λ found. found ≡ spec.limit_problem (known_by columns.now)) }
{
    match &columns.run().mode {
        Mode::Destroy => holding_row(columns, over),
        Mode::Refresh { .. } => Ok(None),
        Mode::Up | Mode::Preview => unpermitted_row(columns),
    }
}

/// The problems of what is left, where the run is over, and else none.
pub fn problems_if_over(alloc: Global, columns: &Columns) -> Result<Vec<Problem>, OutOfMemory>
    ensures { IfOk result (λ problems. problems.items
        ≡ (if is_over (known_by columns.now) then spec.end_problems (known_by columns.now) else [])) }
{
    if columns.is_over() {
        end_problems(alloc, columns, true)
    } else {
        Ok(Vec::new(alloc))
    }
}

/// The problems of what is left, where the run is over by an event and no problem stands. `was_over` says whether it was
/// over before, and `makes` whether the event makes a problem. The columns are those after the event, but for the
/// problems, which are those before it.
pub fn problems_by_end(
    alloc: Global,
    columns: &Columns,
    was_over: bool,
    makes: bool,
) -> Result<Vec<Problem>, OutOfMemory>
    ensures { IfOk result (λ problems. (earlier : Known) (what : What)
        → is_over earlier ≡ was_over
        → has_problem earlier ≡ has_problem (known_by columns.now)
        → is_some (first_in (spec.made_problems earlier (known_by columns.now) what)) ≡ makes
        → problems.items ≡ (if spec.ends_well earlier (known_by columns.now) what then spec.end_problems (known_by columns.now) else [])) }
{
    if may_end(columns, was_over, makes) {
        let problems = problems_if_over(alloc, columns)?;
        Ok(problems)
    } else {
        Ok(Vec::new(alloc))
    }
}

/// Whether nothing but that the run goes on keeps it from ending well.
fn may_end(columns: &Columns, was_over: bool, makes: bool) -> bool
    ensures { result ≡ (not was_over && not (has_problem (known_by columns.now)) && not makes) }
{
    !was_over && !columns.has_problem() && !makes
}

/// The problems of what is left, where the run is over by the host's end and no problem stands. `was_over` says whether it
/// was over before. The columns are those after the event, but for the problems, which are those before it.
pub fn host_gone_problems(
    alloc: Global,
    columns: &Columns,
    was_over: bool,
    end: &HostEnd,
) -> Result<Vec<Problem>, OutOfMemory>
    ensures { IfOk result (λ problems. (earlier : Known)
        → IsBeforeEnd earlier (known_by columns.now)
        → is_over earlier ≡ was_over
        → problems.items ≡ (if spec.ends_well earlier (known_by columns.now) (HostGone end.now) then spec.end_problems (known_by columns.now) else [])) }
{
    let problems = problems_by_end(alloc, columns, was_over, is_problem(end))?;
    Ok(problems)
}

/// Whether a host's end is a problem.
fn is_problem(end: &HostEnd) -> bool
    ensures { result ≡ is_some (spec.problem_of_end end.now) }
{
    !matches!(end, HostEnd::Success)
}

/// The problems of what is left, where the run is over by the keep of a goal and no problem stands, as for the host's
/// end.
pub fn kept_problems(
    alloc: Global,
    columns: &Columns,
    was_over: bool,
) -> Result<Vec<Problem>, OutOfMemory>
    ensures { IfOk result (λ problems. (earlier : Known) (goal : ℕ) (fresh : Option ℕ)
        → IsBeforeEnd earlier (known_by columns.now)
        → is_over earlier ≡ was_over
        → problems.items ≡ (if spec.ends_well earlier (known_by columns.now) (Kept goal fresh) then spec.end_problems (known_by columns.now) else [])) }
{
    let problems = problems_by_end(alloc, columns, was_over, false)?;
    Ok(problems)
}
