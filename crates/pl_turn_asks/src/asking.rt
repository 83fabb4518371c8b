ghost use Rattle.std.specs.Prelude.{◌≡◌, IfOk};
ghost use Rattle.std.specs.Option.{option_copied};
ghost use Rattle.pl_columns.specs.Read.{known_by};
ghost use Rattle.pl_entries.specs.Opened.{IsRowNow};
ghost use Rattle.pl_model.specs.Asked as spec;
ghost use Rattle.pl_turn_asks.specs.Kept.{KeepsDeleted};

use crate::deleted::deleted_row;
use crate::turning::{ask_check, ask_config, ask_diff};
use pl_columns::Columns;
use pl_events::{Ask, Op};
use pl_snap::Snap;
use pl_state::Entry;
use pl_value::OutOfMemory;
use std::alloc::Global;

/// What a provider is asked by an operation. `row` is the row that a deletion deletes, as it stands now, and nothing
/// else is asked of it.
pub fn ask_of(
    alloc: Global,
    columns: &Columns,
    about: Op,
    row: Option<&Entry>,
) -> Result<Option<Ask>, OutOfMemory>
    requires { IsRowNow (known_by columns.now) about (option_copied row) }
    ensures { IfOk result (λ made. made ≡ spec.ask_of (known_by columns.now) about) }
{
    match about {
        Op::CheckConfig(subject) => ask_config(alloc, columns, subject),
        Op::Check(subject) => ask_check(alloc, columns, subject),
        Op::Diff(subject) => ask_diff(alloc, columns, subject),
        Op::Configure(_)
        | Op::Create(_)
        | Op::Update(_)
        | Op::Delete(_)
        | Op::Read(_)
        | Op::Invoke(_) => pl_asks::ask_of(alloc, columns, about, row),
    }
}

/// The same, with the row of a deletion as the merged snapshot keeps it.
pub fn ask(
    alloc: Global,
    columns: &Columns,
    snap: &Snap,
    about: Op,
) -> Result<Option<Ask>, OutOfMemory>
    requires { KeepsDeleted (known_by columns.now) snap.now about }
    ensures { IfOk result (λ made. made ≡ spec.ask_of (known_by columns.now) about) }
{
    ask_of(alloc, columns, about, deleted_row(snap, about))
}
