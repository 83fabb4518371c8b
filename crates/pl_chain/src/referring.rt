ghost use Rattle.std.specs.Prelude.{◌≡◌};
ghost use Rattle.std.specs.List.{list_any};
ghost use Rattle.pl_sound.specs.Seen.{has_text};
ghost use Rattle.pl_state.specs.References.{optional_refs, refs};
ghost use Rattle.pl_state.specs.declared.fault.Missing.TheVariants.{DeletedWith, Parent, Provider};
ghost use Rattle.pl_chain.specs.Given.{is_given};

use pl_sound::Seen;
use pl_state::Entry;
use pl_urn::Urn;

/// Whether a row in the index meets one of the row's references.
pub fn refers_into<'a>(seen: &Seen<'a>, row: &'a Entry) -> bool
    ensures { result ≡ list_any (is_given seen.now) (refs row.now) }
{
    has_parent(seen, row)
        || has_provider(seen, row)
        || has_any(seen, row.dependencies.as_slice())
        || has_any_of_property(seen, row)
        || has_deleter(seen, row)
}

fn has_parent(seen: &Seen<'_>, row: &Entry) -> bool
    ensures { result ≡ list_any (is_given seen.now) (optional_refs Parent row.now.parent) }
{
    match &row.parent {
        None => false,
        Some(parent) => seen.has_urn(parent),
    }
}

fn has_provider<'a>(seen: &Seen<'a>, row: &'a Entry) -> bool
    ensures { result ≡ list_any (is_given seen.now) (optional_refs Provider row.now.provider) }
{
    match &row.provider {
        None => false,
        Some(reference) => seen.has_provider(reference),
    }
}

fn has_any(seen: &Seen<'_>, urns: &[Urn]) -> bool
    ensures { result ≡ list_any (has_text seen.now.urns) urns.now }
{
    urns.iter().any(|urn| seen.has_urn(urn))
}

fn has_any_of_property(seen: &Seen<'_>, row: &Entry) -> bool
    ensures { result ≡ list_any (λ pair. list_any (has_text seen.now.urns) pair.1) row.now.property_dependencies }
{
    let pairs = row.property_dependencies.as_slice();
    pairs.iter().any(|pair| has_any(seen, pair.1.as_slice()))
}

fn has_deleter(seen: &Seen<'_>, row: &Entry) -> bool
    ensures { result ≡ list_any (is_given seen.now) (optional_refs DeletedWith row.now.deleted_with) }
{
    match &row.deleted_with {
        None => false,
        Some(deleter) => seen.has_urn(deleter),
    }
}
