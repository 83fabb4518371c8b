ghost use Rattle.std.specs.Prelude.{◌≡◌, IfOk, option_and_then, true};
ghost use Rattle.std.specs.Option.{option_copied};
ghost use Rattle.pl_columns.specs.Read.{known_by};
ghost use Rattle.pl_entries.specs.Opened.{IsRowNow};
ghost use Rattle.pl_entries.specs.Recorded.{is_provider_decided};
ghost use Rattle.pl_lemmas.specs.Words.{none_or};
ghost use Rattle.pl_model.specs.Known.{Known};
ghost use Rattle.pl_model.specs.Recording as recording;
ghost use Rattle.pl_model.specs.State as spec;
ghost use Rattle.pl_turn_asks.specs.Kept.{KeepsDeleted, kept_entry};

use pl_columns::Columns;
use pl_events::{Op, Subject};
use pl_snap::Snap;
use pl_state::{Entry, Pending};
use pl_value::OutOfMemory;
use std::alloc::Global;

/// The row that an operation deletes, as it stands now, if it deletes one.
pub fn deleted_row<'a>(snap: &'a Snap, about: Op) -> Option<&'a Entry>
    ensures { (known : Known) → KeepsDeleted known snap.now about → IsRowNow known about (option_copied result) }
{
    kept_row(snap, row_of_delete(about))
}

/// The pending operation that an operation opens when it is begun.
pub fn pending_for(
    alloc: Global,
    columns: &Columns,
    snap: &Snap,
    about: Op,
) -> Result<Option<Pending>, OutOfMemory>
    requires provider { none_or (is_provider_decided (known_by columns.now)) (recording.goal_of_op about) ≡ true }
    requires row { KeepsDeleted (known_by columns.now) snap.now about }
    ensures { IfOk result (λ made. made ≡ spec.pending_for (known_by columns.now) about) }
{
    pl_entries::pending_for(alloc, columns, about, deleted_row(snap, about))
}

/// The entry of a row of the state at the start, as the merged snapshot keeps it.
fn kept_row<'a>(snap: &'a Snap, row: Option<u64>) -> Option<&'a Entry>
    ensures { option_copied result ≡ option_and_then (kept_entry snap.now) row }
{
    match row {
        Some(row) => snap.row(row),
        None => None,
    }
}

fn row_of_delete(about: Op) -> Option<u64>
    ensures { result ≡ recording.row_of_delete about }
{
    match about {
        Op::Delete(subject) => row_in(subject),
        _ => None,
    }
}

fn row_in(about: Subject) -> Option<u64>
    ensures { result ≡ recording.row_in about }
{
    match about {
        Subject::Row(row) => Some(row),
        Subject::Goal(_) | Subject::Pending(_) => None,
    }
}
