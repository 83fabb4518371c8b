ghost use Rattle.std.specs.Prelude.{◌≡◌, IfOk};
ghost use Rattle.pl_state.specs.Component.{component_entry};

use pl_reference::{KeyedUrns, ProviderRef, Urns, copy_reference, copy_text, copy_urn};
use pl_urn::Urn;
use pl_value::{Fields, OutOfMemory, Text, Texts};
use std::alloc::Global;

/// What the checkpoint keeps of one resource.
#[derive(Debug, Drop)]
pub struct Entry {
    pub urn: Urn,
    /// Whether a provider has a real thing behind it; a component has none.
    pub custom: bool,
    /// The type, as `my:index:Site`.
    pub kind: Text,
    /// The name that the provider gave the real thing.
    pub id: Option<Text>,
    pub inputs: Fields,
    pub outputs: Fields,
    pub parent: Option<Urn>,
    pub provider: Option<ProviderRef>,
    pub dependencies: Urns,
    /// What the value of a property depends on, by the property.
    pub property_dependencies: KeyedUrns,
    /// Whether the real thing was replaced and is still to be deleted; `delete` in the checkpoint.
    pub doomed: bool,
    pub protect: bool,
    /// Whether the real thing is only read, and never changed.
    pub external: bool,
    pub init_errors: Texts,
    /// The outputs that are kept as secrets beside those that the provider marks.
    pub additional_secret_outputs: Texts,
    pub aliases: Urns,
    pub import_id: Option<Text>,
    pub retain_on_delete: bool,
    /// The resource whose deletion takes this one along.
    pub deleted_with: Option<Urn>,
    /// Whether the real thing was deleted to be made anew, and is not made yet.
    pub pending_replacement: bool,
    /// The compact text of a JSON object with the fields that are kept unread.
    pub rest: Text,
}

impl Entry {
    /// The entry of a component that has nothing but a type and, maybe, a parent.
    pub fn component(
        alloc: Global,
        urn: Urn,
        kind: Text,
        parent: Option<Urn>,
    ) -> Result<Entry, OutOfMemory>
        ensures { IfOk result (λ made. made ≡ component_entry urn kind parent) }
    {
        let rest = Text::from_str(alloc, "{}")?;
        Ok(Entry {
            urn,
            custom: false,
            kind,
            id: None,
            inputs: Fields::new(alloc),
            outputs: Fields::new(alloc),
            parent,
            provider: None,
            dependencies: Urns::new(alloc),
            property_dependencies: KeyedUrns::new(alloc),
            doomed: false,
            protect: false,
            external: false,
            init_errors: Texts::new(alloc),
            additional_secret_outputs: Texts::new(alloc),
            aliases: Urns::new(alloc),
            import_id: None,
            retain_on_delete: false,
            deleted_with: None,
            pending_replacement: false,
            rest,
        })
    }

    pub fn copy(&self, alloc: Global) -> Result<Entry, OutOfMemory>
        ensures { IfOk result (λ made. made ≡ self.now) }
    {
        let names = self.copy_names()?;
        let links = self.copy_links()?;
        let contents = self.copy_contents(alloc)?;
        Ok(Entry {
            urn: names.urn,
            custom: self.custom,
            kind: names.kind,
            id: names.id,
            inputs: contents.inputs,
            outputs: contents.outputs,
            parent: links.parent,
            provider: links.provider,
            dependencies: links.dependencies,
            property_dependencies: links.property_dependencies,
            doomed: self.doomed,
            protect: self.protect,
            external: self.external,
            init_errors: contents.init_errors,
            additional_secret_outputs: contents.additional_secret_outputs,
            aliases: links.aliases,
            import_id: names.import_id,
            retain_on_delete: self.retain_on_delete,
            deleted_with: links.deleted_with,
            pending_replacement: self.pending_replacement,
            rest: contents.rest,
        })
    }

    fn copy_names(&self) -> Result<Names, OutOfMemory>
        ensures { IfOk result (λ made. made ≡ record {
          urn = self.now.urn;
          kind = self.now.kind;
          id = self.now.id;
          import_id = self.now.import_id;
        }) }
    {
        Ok(Names {
            urn: self.urn.copy()?,
            kind: self.kind.copy()?,
            id: copy_text(&self.id)?,
            import_id: copy_text(&self.import_id)?,
        })
    }

    fn copy_links(&self) -> Result<Links, OutOfMemory>
        ensures { IfOk result (λ made. made ≡ record {
          parent = self.now.parent;
          provider = self.now.provider;
          dependencies = self.now.dependencies;
          property_dependencies = self.now.property_dependencies;
          aliases = self.now.aliases;
          deleted_with = self.now.deleted_with;
        }) }
    {
        Ok(Links {
            parent: copy_urn(&self.parent)?,
            provider: copy_reference(&self.provider)?,
            dependencies: self.dependencies.copy()?,
            property_dependencies: self.property_dependencies.copy()?,
            aliases: self.aliases.copy()?,
            deleted_with: copy_urn(&self.deleted_with)?,
        })
    }

    fn copy_contents(&self, alloc: Global) -> Result<Contents, OutOfMemory>
        ensures { IfOk result (λ made. made ≡ record {
          inputs = self.now.inputs;
          outputs = self.now.outputs;
          init_errors = self.now.init_errors;
          additional_secret_outputs = self.now.additional_secret_outputs;
          rest = self.now.rest;
        }) }
    {
        Ok(Contents {
            inputs: self.inputs.copy(alloc)?,
            outputs: self.outputs.copy(alloc)?,
            init_errors: self.init_errors.copy()?,
            additional_secret_outputs: self.additional_secret_outputs.copy()?,
            rest: self.rest.copy()?,
        })
    }
}

/// The texts that name a resource, as they are copied.
#[derive(Drop)]
struct Names {
    urn: Urn,
    kind: Text,
    id: Option<Text>,
    import_id: Option<Text>,
}

/// What an entry refers to, as it is copied.
#[derive(Drop)]
struct Links {
    parent: Option<Urn>,
    provider: Option<ProviderRef>,
    dependencies: Urns,
    property_dependencies: KeyedUrns,
    aliases: Urns,
    deleted_with: Option<Urn>,
}

/// The values and texts of an entry that nothing refers to, as they are copied.
#[derive(Drop)]
struct Contents {
    inputs: Fields,
    outputs: Fields,
    init_errors: Texts,
    additional_secret_outputs: Texts,
    rest: Text,
}
