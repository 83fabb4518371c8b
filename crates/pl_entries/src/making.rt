ghost use Rattle.std.specs.Prelude.{◌≡◌, IfOk};
ghost use Rattle.pl_entries.specs.Recorded.{recorded_result};
ghost use Rattle.pl_model.specs.Entries as spec;
ghost use Rattle.pl_model.specs.Known.{Known};
ghost use Rattle.pl_value.specs.Secrets.{marked};

use crate::recording::Recording;
use pl_decide::Decision;
use pl_model::Decided;
use pl_reference::{KeyedUrns, ProviderRef, Urns, copy_text, copy_urn};
use pl_state::{Entry, Goal};
use pl_urn::Urn;
use pl_value::{Fields, OutOfMemory, Text, Texts, mark_secrets};
use std::alloc::Global;

/// The entry of a goal with this reference to its provider.
pub fn goal_entry(
    alloc: Global,
    goal: &Goal,
    one: &Decided,
    provider: Option<ProviderRef>,
    recording: Recording,
) -> Result<Entry, OutOfMemory>
    ensures { IfOk result (λ made. (known : Known) → made ≡
        record (spec.goal_entry known goal.now one.now (recorded_result recording)) { provider = provider }) }
{
    let names = copy_names(goal)?;
    let links = copy_links(goal)?;
    let inputs = one.checked.copy(alloc)?;
    let outputs = marked_outputs(alloc, recording.outputs, &goal.additional_secret_outputs)?;
    Ok(Entry {
        urn: names.urn,
        custom: goal.custom,
        kind: names.kind,
        id: recording.id,
        inputs,
        outputs,
        parent: links.parent,
        provider,
        dependencies: links.dependencies,
        property_dependencies: links.property_dependencies,
        doomed: false,
        protect: goal.protect,
        external: is_read_only(&one.decision),
        init_errors: recording.reasons,
        additional_secret_outputs: names.secrets,
        aliases: links.aliases,
        import_id: names.import_id,
        retain_on_delete: goal.retain_on_delete,
        deleted_with: links.deleted_with,
        pending_replacement: false,
        rest: recording.rest,
    })
}

fn is_read_only(decision: &Decision) -> bool
    ensures { result ≡ spec.is_read_only decision.now }
{
    matches!(decision, Decision::ReadOnly)
}

fn marked_outputs(alloc: Global, outputs: Fields, secrets: &Texts) -> Result<Fields, OutOfMemory>
    ensures { IfOk result (λ made. made ≡ marked secrets.now outputs) }
{
    match mark_secrets(alloc, outputs, secrets) {
        Ok(made) => Ok(made),
        Err((_, fault)) => Err(fault),
    }
}

fn copy_names(goal: &Goal) -> Result<Names, OutOfMemory>
    ensures { IfOk result (λ made. made ≡ record {
      urn = goal.now.urn;
      kind = goal.now.kind;
      import_id = goal.now.import_id;
      secrets = goal.now.additional_secret_outputs;
    }) }
{
    Ok(Names {
        urn: goal.urn.copy()?,
        kind: goal.kind.copy()?,
        import_id: copy_text(&goal.import_id)?,
        secrets: goal.additional_secret_outputs.copy()?,
    })
}

fn copy_links(goal: &Goal) -> Result<Links, OutOfMemory>
    ensures { IfOk result (λ made. made ≡ record {
      parent = goal.now.parent;
      dependencies = goal.now.dependencies;
      property_dependencies = goal.now.property_dependencies;
      aliases = goal.now.aliases;
      deleted_with = goal.now.deleted_with;
    }) }
{
    Ok(Links {
        parent: copy_urn(&goal.parent)?,
        dependencies: goal.dependencies.copy()?,
        property_dependencies: goal.property_dependencies.copy()?,
        aliases: goal.aliases.copy()?,
        deleted_with: copy_urn(&goal.deleted_with)?,
    })
}

/// The texts of a goal that its entry has, as they are copied.
#[derive(Drop)]
struct Names {
    urn: Urn,
    kind: Text,
    import_id: Option<Text>,
    secrets: Texts,
}

/// What a goal refers to, as it is copied for its entry.
#[derive(Drop)]
struct Links {
    parent: Option<Urn>,
    dependencies: Urns,
    property_dependencies: KeyedUrns,
    aliases: Urns,
    deleted_with: Option<Urn>,
}
