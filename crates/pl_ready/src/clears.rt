ghost use Rattle.std.specs.Prelude.{◌≡◌, ◌&&◌, position};
ghost use Rattle.std.specs.List.{list_any};
ghost use Rattle.std.specs.Option.{option_copied};
ghost use Rattle.std.specs.Str.{bytes_eq};
ghost use Rattle.pl_columns.specs.Read.{known_by};
ghost use Rattle.pl_lemmas.specs.Words.{is_row, some_passes};
ghost use Rattle.pl_model.specs.Decisions.{same_text};
ghost use Rattle.pl_model.specs.Due as spec;
ghost use Rattle.pl_model.specs.Problems as problems;
ghost use Rattle.pl_model.specs.Rows as rows;
ghost use Rattle.pl_model.specs.Run as run;
ghost use Rattle.pl_model.specs.State as state;

use pl_columns::Columns;
use pl_decide::is_provided_row;
use pl_events::{Op, Reply, Subject};
use pl_model::{Fixed, Mode};
use pl_state::{Entry, Pending, PendingKind};
use pl_urn::Urn;
use pl_value::Text;

fn same_id(own: Option<&Text>, other: Option<&Text>) -> bool
    ensures { result ≡ same_text (option_copied own.entry) (option_copied other.entry) }
{
    match own {
        None => other.is_none(),
        Some(own) => match other {
            None => false,
            Some(other) => own.as_str() == other.as_str(),
        },
    }
}

/// Whether a row is to be read in a run that reads everything anew.
fn is_to_read(row: &Entry) -> bool
    ensures { result ≡ problems.is_to_read row.now }
{
    is_provided_row(row) && !row.pending_replacement
}

/// Whether a row is to be read and has the URN and the id of an entry.
fn tells_of(row: &Entry, entry: &Entry) -> bool
    ensures { result ≡ (problems.is_to_read row.now && bytes_eq row.now.urn entry.now.urn && same_text row.now.id entry.now.id) }
{
    is_to_read(row)
        && row.urn.as_str() == entry.urn.as_str()
        && same_id(row.id.as_ref(), entry.id.as_ref())
}

fn was_read(columns: &Columns, row: u64) -> bool
    ensures { result ≡ spec.was_read (known_by columns.now) row }
{
    columns.reply_to(Op::Read(Subject::Row(row))).is_some()
}

fn is_told_of(columns: &Columns, entry: &Entry, row: u64) -> bool
    ensures { result ≡ some_passes (λ other. problems.is_to_read other && bytes_eq other.urn entry.now.urn
        && same_text other.id entry.now.id) (rows.row_at (known_by columns.now) row) }
{
    match columns.row(row) {
        None => false,
        Some(other) => tells_of(other, entry),
    }
}

/// Whether a row with the URN and the id of a pending operation is still to be read.
fn is_awaited(columns: &Columns, entry: &Entry, row: u64) -> bool
    ensures { result ≡ spec.is_awaited (known_by columns.now) entry.now row }
{
    is_told_of(columns, entry, row) && !was_read(columns, row)
}

fn any_awaited(columns: &Columns, entry: &Entry) -> bool
    ensures { result ≡ list_any (spec.is_awaited (known_by columns.now) entry.now) (rows.row_numbers (known_by columns.now)) }
{
    (0..columns.row_count()).any(|row| is_awaited(columns, entry, row))
}

fn is_creating(kind: PendingKind) -> bool
    ensures { result ≡ problems.is_creating kind }
{
    matches!(kind, PendingKind::Creating)
}

fn creates_urn(urn: &Urn, pending: &Pending) -> bool
    ensures { result ≡ problems.creates_urn urn.now pending.now }
{
    is_creating(pending.kind) && pending.entry.urn.as_str() == urn.as_str()
}

fn creating_place(pending: &[Pending], urn: &Urn) -> Option<usize>
    ensures { result ≡ position (problems.creates_urn urn.now) pending.now }
{
    pending.iter().position(|one| creates_urn(urn, one))
}

/// Whether the first pending creation of a URN is the one at a place.
#[tactic(auto, using(crate::proofs::Places::create_place))]
fn is_import_of(run: &Fixed, urn: &Urn, at: u64) -> bool
    ensures { result ≡ is_row (problems.pending_create run.now urn.now) at }
{
    match creating_place(run.base.pending.as_slice(), urn) {
        None => false,
        Some(place) => place as u64 == at,
    }
}

fn any_import_of(run: &Fixed, imports: &[(Text, Urn)], at: u64) -> bool
    ensures { result ≡ list_any (λ pair. is_row (problems.pending_create run.now pair.1) at) imports.now }
{
    imports.iter().any(|pair| is_import_of(run, &pair.1, at))
}

/// Whether a pending operation of the state at the start is one that an import closes.
pub fn is_imported(columns: &Columns, at: u64) -> bool
    ensures { result ≡ spec.is_imported (known_by columns.now) at }
{
    let run = columns.run();
    match &run.mode {
        Mode::Refresh { imports, .. } => any_import_of(run, imports.as_slice(), at),
        Mode::Up | Mode::Preview | Mode::Destroy => false,
    }
}

fn clears_creates(mode: &Mode) -> bool
    ensures { result ≡ run.clears_creates mode.now }
{
    match mode {
        Mode::Refresh { clear, .. } => *clear,
        Mode::Up | Mode::Preview | Mode::Destroy => false,
    }
}

fn is_refresh(mode: &Mode) -> bool
    ensures { result ≡ run.is_refresh mode.now }
{
    matches!(mode, Mode::Refresh { .. })
}

/// Whether a pending operation can be let go: a creation where the command says so and no import is to close it, another
/// one once each row that tells of it was read. For the latter it walks over the rows.
pub fn is_settled(columns: &Columns, at: u64, pending: &Pending) -> bool
    ensures { result ≡ spec.is_settled (known_by columns.now) at pending.now }
{
    if is_creating(pending.kind) {
        clears_creates(&columns.run().mode) && !is_imported(columns, at)
    } else {
        !any_awaited(columns, &pending.entry)
    }
}

fn is_settled_at(columns: &Columns, at: u64) -> bool
    ensures { result ≡ some_passes (spec.is_settled (known_by columns.now) at) (rows.pending_at (known_by columns.now) at) }
{
    match columns.run().base.pending.get(at as usize) {
        None => false,
        Some(pending) => is_settled(columns, at, pending),
    }
}

fn is_found(reply: Option<&Reply>) -> bool
    ensures { result ≡ state.is_found (option_copied reply.entry) }
{
    matches!(reply, Some(Reply::Found { .. }))
}

/// Whether a pending operation of the state at the start is no longer pending: it was cleared, or imported.
fn is_cleared(columns: &Columns, at: u64) -> bool
    ensures { result ≡ state.is_cleared (known_by columns.now) at }
{
    columns.was_cleared(at) || is_found(columns.reply_to(Op::Read(Subject::Pending(at))))
}

/// Whether a pending operation of the state at the start can be let go now, in a run that reads everything anew.
pub fn is_clear_ready(columns: &Columns, at: u64) -> bool
    ensures { result ≡ spec.is_clear_ready (known_by columns.now) at }
{
    is_refresh(&columns.run().mode) && !is_cleared(columns, at) && is_settled_at(columns, at)
}
