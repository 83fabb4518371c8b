ghost use Rattle.std.specs.Prelude.{◌≡◌, find, option_map, position};
ghost use Rattle.std.specs.Option.{option_copied};
ghost use Rattle.pl_columns.specs.Read.{known_by};
ghost use Rattle.pl_lemmas.specs.Words.{is_row};
ghost use Rattle.pl_model.specs.Asked.{import_id};
ghost use Rattle.pl_model.specs.Problems as spec;
ghost use Rattle.pl_model.specs.Rows as rows;

use pl_columns::Columns;
use pl_model::{Fixed, Mode};
use pl_state::{Imports, Pending, PendingKind};
use pl_urn::Urn;
use pl_value::Text;

/// A pending operation of the state at the start.
pub fn pending_at(columns: &Columns, at: u64) -> Option<&Pending>
    ensures { option_copied result ≡ rows.pending_at (known_by columns.now) at }
{
    columns.run().base.pending.get(at as usize)
}

fn creates_urn(urn: &str, pending: &Pending) -> bool
    ensures { result ≡ spec.creates_urn urn.now pending.now }
{
    is_creating(pending.kind) && pending.entry.urn.as_str() == urn
}

fn is_creating(kind: PendingKind) -> bool
    ensures { result ≡ spec.is_creating kind }
{
    matches!(kind, PendingKind::Creating)
}

fn creating_place(pending: &[Pending], urn: &str) -> Option<usize>
    ensures { result ≡ position (spec.creates_urn urn.now) pending.now }
{
    pending.iter().position(|one| creates_urn(urn, one))
}

/// The place of the first pending creation of a URN.
#[tactic(auto, using(crate::proofs::Places::create_place))]
fn pending_create(run: &Fixed, urn: &str) -> Option<u64>
    ensures { result ≡ spec.pending_create run.now urn.now }
{
    let place = creating_place(run.base.pending.as_slice(), urn)?;
    Some(place as u64)
}

/// Whether an import is of the pending operation at a place.
fn is_import_of(run: &Fixed, urn: &Urn, at: u64) -> bool
    ensures { result ≡ is_row (spec.pending_create run.now urn.now) at }
{
    match pending_create(run, urn.as_str()) {
        Some(place) => place == at,
        None => false,
    }
}

fn import_in<'a>(run: &Fixed, imports: &'a [(Text, Urn)], at: u64) -> Option<&'a (Text, Urn)>
    ensures { option_copied result ≡ find (λ pair. is_row (spec.pending_create run.now pair.1) at) imports.now }
{
    imports.iter().find(|pair| is_import_of(run, &pair.1, at))
}

/// The id that a list of imports names for the pending operation at a place.
fn id_in<'a>(run: &Fixed, imports: &'a Imports, at: u64) -> Option<&'a Text>
    ensures { option_copied result ≡ option_map (λ pair. pair.0) (find (λ pair. is_row (spec.pending_create run.now pair.1) at) imports.now) }
{
    match import_in(run, imports.as_slice(), at) {
        Some(pair) => Some(&pair.0),
        None => None,
    }
}

/// The id by which the command imports the pending creation at a place.
pub fn import_id(columns: &Columns, at: u64) -> Option<&Text>
    ensures { option_copied result ≡ import_id (known_by columns.now) at }
{
    let run = columns.run();
    match &run.mode {
        Mode::Refresh { imports, .. } => id_in(run, imports, at),
        Mode::Up | Mode::Preview | Mode::Destroy => None,
    }
}
