ghost use Rattle.std.specs.Prelude.{◌≡◌, ◌&&◌, ◌||◌, ℕ, [], find, IfOk, List, map, not, OnOk};
ghost use Rattle.std.specs.Option.{option_copied};
ghost use Rattle.std.specs.Str.{bytes_eq};
ghost use Rattle.pl_state.specs.declared.fault.Missing.{Missing};
ghost use Rattle.pl_state.specs.declared.fault.Missing.TheVariants.{DeletedWith, Dependency, Parent, Provider};
ghost use Rattle.pl_reference.specs.declared.reference.ProviderRef.{ProviderRef};
ghost use Rattle.pl_sound.specs.Seen.{gives, has_pair, has_text, HasOneMore};
ghost use Rattle.pl_state.specs.References.{is_provider, keeps_urn, optional_refs, property_urns};
ghost use Rattle.pl_sound.specs.Sound.{first_unmet, is_met, own_wants};

use pl_reference::ProviderRef;
use pl_state::{Entry, Missing};
use pl_urn::Urn;
use pl_value::OutOfMemory;
use std::alloc::Global;
use std::collections::BTreeSet;

/// The rows before a place, by what is asked of them.
#[derive(Drop)]
pub struct Seen<'a> {
    urns: BTreeSet<&'a str>,
    /// The URNs of the rows that are not to be deleted.
    kept: BTreeSet<&'a str>,
    /// The URN and the id of each row that has an id.
    things: BTreeSet<(&'a str, &'a str)>,
}

fn add_text<'a>(texts: &mut BTreeSet<&'a str>, text: &'a str) -> Result<(), OutOfMemory>
    ensures { OnOk result ((other : List ℕ) →
        has_text texts.new other ≡ (bytes_eq text.now other || has_text texts.old other)) }
{
    texts.insert(text)?;
    Ok(())
}

fn add_kept<'a>(kept: &mut BTreeSet<&'a str>, row: &'a Entry) -> Result<(), OutOfMemory>
    ensures { OnOk result ((urn : List ℕ) →
        has_text kept.new urn ≡ (keeps_urn urn row.now || has_text kept.old urn)) }
{
    if row.doomed {
        return Ok(());
    }
    add_text(kept, row.urn.as_str())
}

fn add_pair<'a>(
    pairs: &mut BTreeSet<(&'a str, &'a str)>,
    first: &'a str,
    second: &'a str,
) -> Result<(), OutOfMemory>
    ensures { OnOk result ((one other : List ℕ) → has_pair pairs.new one other
        ≡ ((bytes_eq first.now one && bytes_eq second.now other) || has_pair pairs.old one other)) }
{
    pairs.insert((first, second))?;
    Ok(())
}

fn add_thing<'a>(
    things: &mut BTreeSet<(&'a str, &'a str)>,
    row: &'a Entry,
) -> Result<(), OutOfMemory>
    ensures { OnOk result ((reference : ProviderRef) → has_pair things.new reference.urn reference.id
        ≡ (is_provider reference row.now || has_pair things.old reference.urn reference.id)) }
{
    match &row.id {
        None => Ok(()),
        Some(id) => add_pair(things, row.urn.as_str(), id.as_str()),
    }
}

impl<'a> Seen<'a> {
    /// No rows; takes no memory.
    pub fn new(alloc: Global) -> Seen<'a>
        ensures { (want : Missing) → gives result want ≡ is_met [] want }
    {
        Seen {
            urns: BTreeSet::new(alloc),
            kept: BTreeSet::new(alloc),
            things: BTreeSet::new(alloc),
        }
    }

    /// Adds the next row; after `OutOfMemory` nothing is said of the index.
    pub fn add(&mut self, row: &'a Entry) -> Result<(), OutOfMemory>
        ensures { OnOk result (HasOneMore self.old self.new row.now) }
    {
        add_text(&mut self.urns, row.urn.as_str())?;
        add_kept(&mut self.kept, row)?;
        add_thing(&mut self.things, row)
    }

    /// Whether a row in the index has this URN.
    pub fn has_urn(&self, urn: &Urn) -> bool
        ensures { result ≡ has_text self.now.urns urn.now }
    {
        self.urns.contains(urn.as_str())
    }

    fn keeps_urn(&self, urn: &Urn) -> bool
        ensures { result ≡ has_text self.now.kept urn.now }
    {
        self.kept.contains(urn.as_str())
    }

    /// Whether a row in the index has this URN and this id.
    pub fn has_provider(&self, reference: &'a ProviderRef) -> bool
        ensures { result ≡ has_pair self.now.things reference.now.urn reference.now.id }
    {
        self.things
            .contains(&(reference.urn.as_str(), reference.id.as_str()))
    }
}

impl<'a> Seen<'a> {
    /// What a row misses first of the rows in the index.
    pub fn missing_in(&self, row: &'a Entry) -> Result<Option<Missing>, OutOfMemory>
        ensures { IfOk result (λ missing. missing ≡ first_unmet (gives self.now) row.now) }
    {
        if let Some(missing) = self.own_missing(row)? {
            return Ok(Some(missing));
        }
        if let Some(missing) = self.parent_missing(row)? {
            return Ok(Some(missing));
        }
        if let Some(missing) = self.provider_missing(row)? {
            return Ok(Some(missing));
        }
        if let Some(missing) = self.dependency_missing(row.dependencies.as_slice())? {
            return Ok(Some(missing));
        }
        if let Some(missing) = self.property_missing(row)? {
            return Ok(Some(missing));
        }
        self.deleter_missing(row)
    }

    fn own_missing(&self, row: &Entry) -> Result<Option<Missing>, OutOfMemory>
        ensures { IfOk result (λ missing.
            missing ≡ find (λ want. not (gives self.now want)) (own_wants row.now)) }
    {
        if row.doomed || !self.keeps_urn(&row.urn) {
            return Ok(None);
        }
        let urn = row.urn.copy()?;
        Ok(Some(Missing::Twice(urn)))
    }

    fn parent_missing(&self, row: &Entry) -> Result<Option<Missing>, OutOfMemory>
        ensures { IfOk result (λ missing.
            missing ≡ find (λ want. not (gives self.now want)) (optional_refs Parent row.now.parent)) }
    {
        let Some(parent) = &row.parent else {
            return Ok(None);
        };
        if self.has_urn(parent) {
            return Ok(None);
        }
        let parent = parent.copy()?;
        Ok(Some(Missing::Parent(parent)))
    }

    fn provider_missing(&self, row: &'a Entry) -> Result<Option<Missing>, OutOfMemory>
        ensures { IfOk result (λ missing.
            missing ≡ find (λ want. not (gives self.now want)) (optional_refs Provider row.now.provider)) }
    {
        let Some(provider) = &row.provider else {
            return Ok(None);
        };
        if self.has_provider(provider) {
            return Ok(None);
        }
        let provider = provider.copy()?;
        Ok(Some(Missing::Provider(provider)))
    }

    fn dependency_missing(&self, urns: &[Urn]) -> Result<Option<Missing>, OutOfMemory>
        ensures { IfOk result (λ missing.
            missing ≡ find (λ want. not (gives self.now want)) (map Dependency urns.now)) }
    {
        let Some(urn) = self.lacking(urns) else {
            return Ok(None);
        };
        let urn = urn.copy()?;
        Ok(Some(Missing::Dependency(urn)))
    }

    fn property_missing(&self, row: &Entry) -> Result<Option<Missing>, OutOfMemory>
        ensures { IfOk result (λ missing.
            missing ≡ find (λ want. not (gives self.now want)) (map Dependency (property_urns row.now.property_dependencies))) }
    {
        for pair in row.property_dependencies.as_slice() {
            if let Some(missing) = self.dependency_missing(pair.1.as_slice())? {
                return Ok(Some(missing));
            }
        }
        Ok(None)
    }

    fn deleter_missing(&self, row: &Entry) -> Result<Option<Missing>, OutOfMemory>
        ensures { IfOk result (λ missing.
            missing ≡ find (λ want. not (gives self.now want)) (optional_refs DeletedWith row.now.deleted_with)) }
    {
        let Some(deleter) = &row.deleted_with else {
            return Ok(None);
        };
        if self.has_urn(deleter) {
            return Ok(None);
        }
        let deleter = deleter.copy()?;
        Ok(Some(Missing::DeletedWith(deleter)))
    }

    /// The first of these URNs that no row has.
    fn lacking<'u>(&self, urns: &'u [Urn]) -> Option<&'u Urn>
        ensures { option_copied result ≡ find (λ urn. not (has_text self.now.urns urn)) urns.now }
    {
        urns.iter().find(|urn| !self.has_urn(urn))
    }
}
