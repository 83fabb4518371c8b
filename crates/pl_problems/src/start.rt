ghost use Rattle.std.specs.Prelude.{◌≡◌, IfOk};
ghost use Rattle.std.specs.Option.{option_or};
ghost use Rattle.pl_lemmas.specs.Words.{first_some};
ghost use Rattle.pl_model.specs.Problems as spec;
ghost use Rattle.pl_model.specs.Run.{imports_of as imports_named, is_refresh as reads_anew, rows_of};
ghost use Rattle.pl_problems.specs.Fresh.{IsFresh};

use crate::ending::problems_if_over;
use crate::imports::{first_uncreated, first_unmet, first_without_provider, imports_of};
use crate::unread::first_unread;
use crate::words::three_found;
use pl_base::Base;
use pl_columns::Columns;
use pl_decide::Problem;
use pl_model::{Fixed, Mode};
use pl_value::OutOfMemory;
use std::alloc::Global;

/// What hinders a run that reads everything anew from its start.
pub fn refresh_problems(alloc: Global, base: &Base) -> Result<Vec<Problem>, OutOfMemory>
    ensures { IfOk result (λ problems. problems.items ≡ spec.refresh_problems base.now) }
{
    let run = base.run();
    let imports = imports_of(&run.mode);
    let uncreated = first_uncreated(run, imports)?;
    let unprovided = unprovided(run)?;
    let unmet = first_unmet(alloc, base, imports)?;
    three_found(alloc, uncreated, unprovided, unmet)
}

/// That a row which is to be read anew names no provider, or else an import.
fn unprovided(run: &Fixed) -> Result<Option<Problem>, OutOfMemory>
    ensures { IfOk result (λ found. found ≡ option_or (first_some spec.unread_row (rows_of run.now))
        (first_some (spec.import_problem spec.names_none run.now) (imports_named run.now.mode))) }
{
    match first_unread(run.base.entries.as_slice())? {
        Some(problem) => Ok(Some(problem)),
        None => first_without_provider(run, imports_of(&run.mode)),
    }
}

/// The problems before any event.
pub fn start_problems(alloc: Global, columns: &Columns) -> Result<Vec<Problem>, OutOfMemory>
    requires { IsFresh columns.now }
    ensures { IfOk result (λ problems. spec.at_position 0 problems.items ≡ spec.start_problems columns.now.claims.run) }
{
    if is_refresh(&columns.run().mode) {
        let hindered = refresh_problems(alloc, columns.claims.base())?;
        Ok(hindered)
    } else {
        let left = problems_if_over(alloc, columns)?;
        Ok(left)
    }
}

/// Whether the run reads everything anew.
fn is_refresh(mode: &Mode) -> bool
    ensures { result ≡ reads_anew mode.now }
{
    matches!(mode, Mode::Refresh { .. })
}
