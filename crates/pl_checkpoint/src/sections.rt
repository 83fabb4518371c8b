ghost use Rattle.std.specs.Prelude.{◌≡◌};
ghost use Rattle.serde_json.specs.View.{members_view};
ghost use Rattle.pl_checkpoint_text.specs.Read.{Tells};
ghost use Rattle.pl_checkpoint.specs.ReadParts.{further_of, joined, last_of, linked_of, named_of, placed_of};

use crate::kept::entry_rest;
use crate::kinds::{
    flag, nonempty, reference_if_some, required_urn, text_if_some, urn_if_some, values,
};
use crate::lists::{properties, texts, urns};
use pl_checkpoint_text::{Members, ReadFault};
use pl_state::{Entry, KeyedUrns, ProviderRef, Urns};
use pl_urn::Urn;
use pl_value::{Fields, Text, Texts};
use std::alloc::Global;

/// What names an entry, and what it is.
#[derive(Drop)]
pub struct Named {
    urn: Urn,
    kind: Text,
    custom: bool,
    doomed: bool,
    id: Option<Text>,
}

/// An entry's values, and what it belongs to.
#[derive(Drop)]
pub struct Placed {
    inputs: Fields,
    outputs: Fields,
    parent: Option<Urn>,
    provider: Option<ProviderRef>,
}

/// What an entry depends on, and how it is kept.
#[derive(Drop)]
pub struct Linked {
    dependencies: Urns,
    property_dependencies: KeyedUrns,
    protect: bool,
    external: bool,
    init_errors: Texts,
}

/// An entry's further choices.
#[derive(Drop)]
pub struct Further {
    additional_secret_outputs: Texts,
    aliases: Urns,
    import_id: Option<Text>,
    retain_on_delete: bool,
}

/// What of an entry is read last.
#[derive(Drop)]
pub struct Last {
    deleted_with: Option<Urn>,
    pending_replacement: bool,
    rest: Text,
}

#[tactic(auto, unfolding(crate::specs::ReadParts::named_of))]
pub fn named_of(alloc: Global, members: &Members, path: &str) -> Result<Named, ReadFault>
    ensures { Tells (named_of path.now (members_view members.now.entries)) result }
{
    let urn = required_urn(alloc, members, path, "urn")?;
    let kind = nonempty(alloc, members, path, "type")?;
    let custom = flag(alloc, members, path, "custom")?;
    let doomed = flag(alloc, members, path, "delete")?;
    let id = text_if_some(alloc, members, path, "id")?;
    Ok(Named {
        urn,
        kind,
        custom,
        doomed,
        id,
    })
}

#[tactic(auto, unfolding(crate::specs::ReadParts::placed_of))]
pub fn placed_of(alloc: Global, members: &Members, path: &str) -> Result<Placed, ReadFault>
    ensures { Tells (placed_of path.now (members_view members.now.entries)) result }
{
    let inputs = values(alloc, members, path, "inputs")?;
    let outputs = values(alloc, members, path, "outputs")?;
    let parent = urn_if_some(alloc, members, path, "parent")?;
    let provider = reference_if_some(alloc, members, path, "provider")?;
    Ok(Placed {
        inputs,
        outputs,
        parent,
        provider,
    })
}

#[tactic(auto, unfolding(crate::specs::ReadParts::linked_of))]
pub fn linked_of(alloc: Global, members: &Members, path: &str) -> Result<Linked, ReadFault>
    ensures { Tells (linked_of path.now (members_view members.now.entries)) result }
{
    let dependencies = urns(alloc, members, path, "dependencies")?;
    let property_dependencies = properties(alloc, members, path, "propertyDependencies")?;
    let protect = flag(alloc, members, path, "protect")?;
    let external = flag(alloc, members, path, "external")?;
    let init_errors = texts(alloc, members, path, "initErrors")?;
    Ok(Linked {
        dependencies,
        property_dependencies,
        protect,
        external,
        init_errors,
    })
}

#[tactic(auto, unfolding(crate::specs::ReadParts::further_of))]
pub fn further_of(alloc: Global, members: &Members, path: &str) -> Result<Further, ReadFault>
    ensures { Tells (further_of path.now (members_view members.now.entries)) result }
{
    let additional_secret_outputs = texts(alloc, members, path, "additionalSecretOutputs")?;
    let aliases = urns(alloc, members, path, "aliases")?;
    let import_id = text_if_some(alloc, members, path, "importID")?;
    let retain_on_delete = flag(alloc, members, path, "retainOnDelete")?;
    Ok(Further {
        additional_secret_outputs,
        aliases,
        import_id,
        retain_on_delete,
    })
}

#[tactic(auto, unfolding(crate::specs::ReadParts::last_of))]
pub fn last_of(alloc: Global, members: &Members, path: &str) -> Result<Last, ReadFault>
    ensures { Tells (last_of path.now (members_view members.now.entries)) result }
{
    let deleted_with = urn_if_some(alloc, members, path, "deletedWith")?;
    let pending_replacement = flag(alloc, members, path, "pendingReplacement")?;
    let rest = entry_rest(alloc, members, path)?;
    Ok(Last {
        deleted_with,
        pending_replacement,
        rest,
    })
}

/// The entry with these parts.
pub fn joined(named: Named, placed: Placed, linked: Linked, further: Further, last: Last) -> Entry
    ensures { result ≡ joined named placed linked further last }
{
    let Named {
        urn,
        kind,
        custom,
        doomed,
        id,
    } = named;
    let Placed {
        inputs,
        outputs,
        parent,
        provider,
    } = placed;
    let Linked {
        dependencies,
        property_dependencies,
        protect,
        external,
        init_errors,
    } = linked;
    let Further {
        additional_secret_outputs,
        aliases,
        import_id,
        retain_on_delete,
    } = further;
    let Last {
        deleted_with,
        pending_replacement,
        rest,
    } = last;
    Entry {
        urn,
        custom,
        kind,
        id,
        inputs,
        outputs,
        parent,
        provider,
        dependencies,
        property_dependencies,
        doomed,
        protect,
        external,
        init_errors,
        additional_secret_outputs,
        aliases,
        import_id,
        retain_on_delete,
        deleted_with,
        pending_replacement,
        rest,
    }
}
