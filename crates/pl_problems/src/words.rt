ghost use Rattle.std.specs.Prelude.{◌≡◌, ◌++◌, IfOk, OnOk, option_and_then, option_map};
ghost use Rattle.pl_columns.specs.Read.{known_by};
ghost use Rattle.pl_lemmas.specs.Words.{option_list};
ghost use Rattle.pl_model.specs.Rows.{row_at};

use pl_columns::Columns;
use pl_decide::Problem;
use pl_urn::Urn;
use pl_value::OutOfMemory;
use std::alloc::Global;

/// Adds a problem, if one was found.
pub fn push_found(problems: &mut Vec<Problem>, found: Option<Problem>) -> Result<(), OutOfMemory>
    ensures { OnOk result (problems.new.items ≡ problems.old.items ++ option_list found) }
{
    if let Some(problem) = found {
        problems.push(problem)?;
    }
    Ok(())
}

/// The problems that were found, of three, in order.
pub fn three_found(
    alloc: Global,
    first: Option<Problem>,
    second: Option<Problem>,
    third: Option<Problem>,
) -> Result<Vec<Problem>, OutOfMemory>
    ensures { IfOk result (λ problems. problems.items ≡ option_list first ++ (option_list second ++ option_list third)) }
{
    let mut problems = Vec::new(alloc);
    push_found(&mut problems, first)?;
    push_found(&mut problems, second)?;
    push_found(&mut problems, third)?;
    Ok(problems)
}

/// The URN that a row has in the state at the start.
pub fn urn_of_row(columns: &Columns, row: Option<u64>) -> Result<Option<Urn>, OutOfMemory>
    ensures { IfOk result (λ urn. urn ≡ option_map (λ entry. entry.urn) (option_and_then (row_at (known_by columns.now)) row)) }
{
    let Some(row) = row else {
        return Ok(None);
    };
    match columns.row(row) {
        None => Ok(None),
        Some(entry) => Ok(Some(entry.urn.copy()?)),
    }
}
