ghost use Rattle.std.specs.Prelude.{◌≡◌, IfOk, option_and_then, position, slice_get};
ghost use Rattle.std.specs.Option.{option_copied};
ghost use Rattle.pl_lemmas.specs.Words.{first_some};
ghost use Rattle.pl_model.specs.Problems as spec;
ghost use Rattle.pl_model.specs.Run as run;
ghost use Rattle.pl_problems.specs.Unmet as unmet;
ghost use Rattle.pl_reference.specs.Reference as reference;

use crate::unread::names_none;
use pl_base::Base;
use pl_decide::Problem;
use pl_model::{Fixed, Mode};
use pl_state::{Entry, Pending, PendingKind, ProviderRef};
use pl_urn::Urn;
use pl_value::{OutOfMemory, Text};
use std::alloc::Global;

/// An id of a thing that is there already, with the URN of its pending creation.
type Import = (Text, Urn);

/// The imports of the command.
pub fn imports_of(mode: &Mode) -> &[Import]
    ensures { result.now ≡ run.imports_of mode.now }
{
    match mode {
        Mode::Refresh { imports, .. } => imports.as_slice(),
        Mode::Up | Mode::Preview | Mode::Destroy => &[],
    }
}

fn is_creating(kind: PendingKind) -> bool
    ensures { result ≡ spec.is_creating kind }
{
    matches!(kind, PendingKind::Creating)
}

fn creates_urn(urn: &str, pending: &Pending) -> bool
    ensures { result ≡ spec.creates_urn urn.now pending.now }
{
    is_creating(pending.kind) && pending.entry.urn.as_str() == urn
}

fn creating_place(pending: &[Pending], urn: &str) -> Option<usize>
    ensures { result ≡ position (spec.creates_urn urn.now) pending.now }
{
    pending.iter().position(|one| creates_urn(urn, one))
}

/// The place of the first pending creation of a URN.
#[tactic(auto, using(crate::proofs::Places::create_place))]
fn pending_create(run: &Fixed, urn: &str) -> Option<u64>
    ensures { result ≡ spec.pending_create run.now urn.now }
{
    let place = creating_place(run.base.pending.as_slice(), urn)?;
    Some(place as u64)
}

/// That no pending creation is of an import's URN.
fn no_create(run: &Fixed, pair: &Import) -> Result<Option<Problem>, OutOfMemory>
    ensures { IfOk result (λ found. found ≡ spec.no_create run.now pair.now) }
{
    match pending_create(run, pair.1.as_str()) {
        Some(_) => Ok(None),
        None => Ok(Some(Problem::NoPendingCreate(pair.1.copy()?))),
    }
}

/// That no pending creation is of the URN of an import: of the first such import.
pub fn first_uncreated(run: &Fixed, imports: &[Import]) -> Result<Option<Problem>, OutOfMemory>
    ensures { IfOk result (λ found. found ≡ first_some (spec.no_create run.now) imports.now) }
{
    for pair in imports {
        if let Some(problem) = no_create(run, pair)? {
            return Ok(Some(problem));
        }
    }
    Ok(None)
}

/// The entry of the pending creation that an import is of.
fn imported_entry<'a>(run: &'a Fixed, pair: &Import) -> Option<&'a Entry>
    ensures { option_copied result ≡ spec.imported_entry run.now pair.now }
{
    let at = pending_create(run, pair.1.as_str())?;
    match run.base.pending.get(at as usize) {
        None => None,
        Some(pending) => Some(&pending.entry),
    }
}

/// That an import names no provider.
fn unprovided_import(run: &Fixed, pair: &Import) -> Result<Option<Problem>, OutOfMemory>
    ensures { IfOk result (λ found. found ≡ spec.import_problem spec.names_none run.now pair.now) }
{
    match imported_entry(run, pair) {
        None => Ok(None),
        Some(entry) => names_none(entry),
    }
}

/// The same, of the first such import.
pub fn first_without_provider(
    run: &Fixed,
    imports: &[Import],
) -> Result<Option<Problem>, OutOfMemory>
    ensures { IfOk result (λ found. found ≡ first_some (spec.import_problem spec.names_none run.now) imports.now) }
{
    for pair in imports {
        if let Some(problem) = unprovided_import(run, pair)? {
            return Ok(Some(problem));
        }
    }
    Ok(None)
}

/// That no row is the provider which an import names.
fn unmet_import(alloc: Global, base: &Base, pair: &Import) -> Result<Option<Problem>, OutOfMemory>
    ensures { IfOk result (λ found. found ≡ unmet.unmet_import base.now pair.now) }
{
    let Some(at) = pending_create(base.run(), pair.1.as_str()) else {
        return Ok(None);
    };
    match unmet_provider(alloc, base, at)? {
        None => Ok(None),
        Some(text) => Ok(Some(Problem::UnknownReference(text))),
    }
}

/// The same, of the first such import.
pub fn first_unmet(
    alloc: Global,
    base: &Base,
    imports: &[Import],
) -> Result<Option<Problem>, OutOfMemory>
    ensures { IfOk result (λ found. found ≡ first_some (unmet.unmet_import base.now) imports.now) }
{
    for pair in imports {
        if let Some(problem) = unmet_import(alloc, base, pair)? {
            return Ok(Some(problem));
        }
    }
    Ok(None)
}

/// The text of the provider reference of the pending operation at a place, where no row is that provider.
fn unmet_provider(alloc: Global, base: &Base, at: u64) -> Result<Option<Text>, OutOfMemory>
    ensures { IfOk result (λ text. text ≡ option_and_then (unmet.unmet_pending base.now) (slice_get base.now.base.pending at)) }
{
    if base.provider_of_pending(at).is_some() {
        return Ok(None);
    }
    match provider_named(base.run(), at) {
        None => Ok(None),
        Some(named) => Ok(Some(reference_text(alloc, named)?)),
    }
}

/// The provider that the pending operation at a place names.
fn provider_named(run: &Fixed, at: u64) -> Option<&ProviderRef>
    ensures { option_copied result ≡ option_and_then (λ pending. pending.entry.provider) (slice_get run.now.base.pending at) }
{
    match run.base.pending.get(at as usize) {
        None => None,
        Some(pending) => pending.entry.provider.as_ref(),
    }
}

fn reference_text(alloc: Global, named: &ProviderRef) -> Result<Text, OutOfMemory>
    ensures { IfOk result (λ text. text ≡ reference.reference_text named.now) }
{
    let mut text = String::from_str(alloc, named.urn.as_str())?;
    text.push_str("::")?;
    text.push_str(named.id.as_str())?;
    Ok(Text::from_string(text))
}
