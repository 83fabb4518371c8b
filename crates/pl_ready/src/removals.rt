ghost use Rattle.std.specs.Prelude.{◌≡◌};
ghost use Rattle.pl_columns.specs.Read.{known_by};
ghost use Rattle.pl_model.specs.Due as spec;
ghost use Rattle.pl_model.specs.Known.{is_over};

use crate::unknown::is_preview;
use pl_columns::Columns;
use pl_old::{has_dependents, is_doomed, is_sent, was_removed};

/// Whether a row can be deleted or dropped; `over` says whether the host has ended and every goal is recorded.
pub fn is_removable(columns: &Columns, over: bool, row: u64) -> bool
    requires { over ≡ is_over (known_by columns.now) }
    ensures { result ≡ spec.is_removable (known_by columns.now) row }
{
    is_doomed(columns, over, row)
        && !was_removed(columns, row)
        && !has_dependents(columns, row)
        && !is_preview(&columns.run().mode)
}

/// Whether a row can be dropped; `over` is as for `is_removable`.
pub fn is_drop_ready(columns: &Columns, over: bool, row: u64) -> bool
    requires { over ≡ is_over (known_by columns.now) }
    ensures { result ≡ spec.is_drop_ready (known_by columns.now) row }
{
    is_removable(columns, over, row) && !is_sent(columns, over, row)
}

/// Whether the deletion of a row can be sent; `over` is as for `is_removable`.
pub fn is_delete_ready(columns: &Columns, over: bool, row: u64) -> bool
    requires { over ≡ is_over (known_by columns.now) }
    ensures { result ≡ spec.is_delete_ready (known_by columns.now) row }
{
    is_removable(columns, over, row) && is_sent(columns, over, row)
}
