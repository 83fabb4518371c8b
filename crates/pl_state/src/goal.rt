ghost use Rattle.std.specs.Prelude.{◌≡◌, [], ◌∷◌, ◌++◌, IfOk, length, OnErr, OnOk, option_map, slice_get};
ghost use Rattle.pl_state.specs.Component.{has_no_flags, has_no_lists, has_no_names, is_plain, plain_registration};

use pl_reference::{KeyedTexts, KeyedUrns, Urns, copy_text, copy_urn};
use pl_urn::Urn;
use pl_value::{Fields, OutOfMemory, Text, Texts};
use std::alloc::Global;
use std::marker::Model;

/// What the host asks for by one `register` or one `read`.
#[derive(Debug, Drop)]
pub struct Registration {
    /// The type, as `my:index:Site`.
    pub kind: Text,
    pub name: Text,
    pub custom: bool,
    pub inputs: Fields,
    /// The parent's URN as it was sent.
    pub parent: Option<Text>,
    /// The provider reference as it was sent.
    pub provider: Option<Text>,
    /// URNs as they were sent.
    pub dependencies: Texts,
    /// URNs as they were sent, by property.
    pub property_dependencies: KeyedTexts,
    pub protect: bool,
    /// Earlier URNs as they were sent.
    pub aliases: Texts,
    /// Property paths.
    pub ignore_changes: Texts,
    pub delete_before_replace: Option<bool>,
    pub retain_on_delete: bool,
    /// The URN, as it was sent, of the resource whose deletion takes this one along.
    pub deleted_with: Option<Text>,
    pub additional_secret_outputs: Texts,
    /// The id of a thing that is there already and is to be taken over.
    pub import_id: Option<Text>,
    /// The version of the provider's package.
    pub version: Option<Text>,
    /// The id of a thing that is only read.
    pub read_id: Option<Text>,
}

impl Registration {
    /// A component that has nothing but a type, a name and, maybe, a parent; takes no memory.
    pub fn component(alloc: Global, kind: Text, name: Text, parent: Option<Text>) -> Registration
        ensures { result ≡ plain_registration kind name parent }
    {
        Registration {
            kind,
            name,
            custom: false,
            inputs: Fields::new(alloc),
            parent,
            provider: None,
            dependencies: Texts::new(alloc),
            property_dependencies: KeyedTexts::new(alloc),
            protect: false,
            aliases: Texts::new(alloc),
            ignore_changes: Texts::new(alloc),
            delete_before_replace: None,
            retain_on_delete: false,
            deleted_with: None,
            additional_secret_outputs: Texts::new(alloc),
            import_id: None,
            version: None,
            read_id: None,
        }
    }

    /// Whether it is a component's, without an option.
    pub fn is_plain(&self) -> bool
        ensures { result ≡ is_plain self.now }
    {
        self.has_no_flags() && self.has_no_names() && self.has_no_lists()
    }

    fn has_no_flags(&self) -> bool
        ensures { result ≡ has_no_flags self.now }
    {
        !self.custom
            && !self.protect
            && !self.retain_on_delete
            && self.delete_before_replace.is_none()
    }

    fn has_no_names(&self) -> bool
        ensures { result ≡ has_no_names self.now }
    {
        self.provider.is_none()
            && self.deleted_with.is_none()
            && self.import_id.is_none()
            && self.version.is_none()
            && self.read_id.is_none()
    }

    fn has_no_lists(&self) -> bool
        ensures { result ≡ has_no_lists self.now }
    {
        self.inputs.len() == 0
            && self.dependencies.len() == 0
            && self.property_dependencies.len() == 0
            && self.aliases.len() == 0
            && self.ignore_changes.len() == 0
            && self.additional_secret_outputs.len() == 0
    }

    pub fn copy(&self, alloc: Global) -> Result<Registration, OutOfMemory>
        ensures { IfOk result (λ made. made ≡ self.now) }
    {
        let words = self.copy_words()?;
        let links = self.copy_links()?;
        let inputs = self.inputs.copy(alloc)?;
        let ignore_changes = self.ignore_changes.copy()?;
        let additional_secret_outputs = self.additional_secret_outputs.copy()?;
        Ok(Registration {
            kind: words.kind,
            name: words.name,
            custom: self.custom,
            inputs,
            parent: links.parent,
            provider: links.provider,
            dependencies: links.dependencies,
            property_dependencies: links.property_dependencies,
            protect: self.protect,
            aliases: links.aliases,
            ignore_changes,
            delete_before_replace: self.delete_before_replace,
            retain_on_delete: self.retain_on_delete,
            deleted_with: links.deleted_with,
            additional_secret_outputs,
            import_id: words.import_id,
            version: words.version,
            read_id: words.read_id,
        })
    }

    fn copy_words(&self) -> Result<ToldWords, OutOfMemory>
        ensures { IfOk result (λ made. made ≡ record {
          kind = self.now.kind;
          name = self.now.name;
          import_id = self.now.import_id;
          version = self.now.version;
          read_id = self.now.read_id;
        }) }
    {
        Ok(ToldWords {
            kind: self.kind.copy()?,
            name: self.name.copy()?,
            import_id: copy_text(&self.import_id)?,
            version: copy_text(&self.version)?,
            read_id: copy_text(&self.read_id)?,
        })
    }

    fn copy_links(&self) -> Result<ToldLinks, OutOfMemory>
        ensures { IfOk result (λ made. made ≡ record {
          parent = self.now.parent;
          provider = self.now.provider;
          dependencies = self.now.dependencies;
          property_dependencies = self.now.property_dependencies;
          aliases = self.now.aliases;
          deleted_with = self.now.deleted_with;
        }) }
    {
        Ok(ToldLinks {
            parent: copy_text(&self.parent)?,
            provider: copy_text(&self.provider)?,
            dependencies: self.dependencies.copy()?,
            property_dependencies: self.property_dependencies.copy()?,
            aliases: self.aliases.copy()?,
            deleted_with: copy_text(&self.deleted_with)?,
        })
    }
}

/// The texts of a registration that name its resource, as they are copied.
#[derive(Drop)]
struct ToldWords {
    kind: Text,
    name: Text,
    import_id: Option<Text>,
    version: Option<Text>,
    read_id: Option<Text>,
}

/// What a registration refers to, as it is copied.
#[derive(Drop)]
struct ToldLinks {
    parent: Option<Text>,
    provider: Option<Text>,
    dependencies: Texts,
    property_dependencies: KeyedTexts,
    aliases: Texts,
    deleted_with: Option<Text>,
}

/// An accepted registration, or the default provider that one needs.
#[derive(Debug, Drop)]
pub struct Goal {
    pub urn: Urn,
    pub custom: bool,
    /// The type, as `my:index:Site`.
    pub kind: Text,
    pub inputs: Fields,
    pub parent: Option<Urn>,
    /// The number of the provider's goal.
    pub provider: Option<u64>,
    pub dependencies: Urns,
    pub property_dependencies: KeyedUrns,
    pub protect: bool,
    pub aliases: Urns,
    /// Property paths, each of which is one.
    pub ignore_changes: Texts,
    pub delete_before_replace: Option<bool>,
    pub retain_on_delete: bool,
    /// The resource whose deletion takes this one along.
    pub deleted_with: Option<Urn>,
    pub additional_secret_outputs: Texts,
    pub import_id: Option<Text>,
    pub version: Option<Text>,
    pub read_id: Option<Text>,
}

impl Goal {
    pub fn copy(&self, alloc: Global) -> Result<Goal, OutOfMemory>
        ensures { IfOk result (λ made. made ≡ self.now) }
    {
        let names = self.copy_names()?;
        let links = self.copy_links()?;
        let inputs = self.inputs.copy(alloc)?;
        let ignore_changes = self.ignore_changes.copy()?;
        let additional_secret_outputs = self.additional_secret_outputs.copy()?;
        Ok(Goal {
            urn: names.urn,
            custom: self.custom,
            kind: names.kind,
            inputs,
            parent: links.parent,
            provider: self.provider,
            dependencies: links.dependencies,
            property_dependencies: links.property_dependencies,
            protect: self.protect,
            aliases: links.aliases,
            ignore_changes,
            delete_before_replace: self.delete_before_replace,
            retain_on_delete: self.retain_on_delete,
            deleted_with: links.deleted_with,
            additional_secret_outputs,
            import_id: names.import_id,
            version: names.version,
            read_id: names.read_id,
        })
    }

    fn copy_names(&self) -> Result<GoalNames, OutOfMemory>
        ensures { IfOk result (λ made. made ≡ record {
          urn = self.now.urn;
          kind = self.now.kind;
          import_id = self.now.import_id;
          version = self.now.version;
          read_id = self.now.read_id;
        }) }
    {
        Ok(GoalNames {
            urn: self.urn.copy()?,
            kind: self.kind.copy()?,
            import_id: copy_text(&self.import_id)?,
            version: copy_text(&self.version)?,
            read_id: copy_text(&self.read_id)?,
        })
    }

    fn copy_links(&self) -> Result<GoalLinks, OutOfMemory>
        ensures { IfOk result (λ made. made ≡ record {
          parent = self.now.parent;
          dependencies = self.now.dependencies;
          property_dependencies = self.now.property_dependencies;
          aliases = self.now.aliases;
          deleted_with = self.now.deleted_with;
        }) }
    {
        Ok(GoalLinks {
            parent: copy_urn(&self.parent)?,
            dependencies: self.dependencies.copy()?,
            property_dependencies: self.property_dependencies.copy()?,
            aliases: self.aliases.copy()?,
            deleted_with: copy_urn(&self.deleted_with)?,
        })
    }
}

/// The texts of a goal that name its resource, as they are copied.
#[derive(Drop)]
struct GoalNames {
    urn: Urn,
    kind: Text,
    import_id: Option<Text>,
    version: Option<Text>,
    read_id: Option<Text>,
}

/// What a goal refers to, as it is copied.
#[derive(Drop)]
struct GoalLinks {
    parent: Option<Urn>,
    dependencies: Urns,
    property_dependencies: KeyedUrns,
    aliases: Urns,
    deleted_with: Option<Urn>,
}

/// Goals in the order of their registration, seen as their list.
#[derive(Debug, Drop)]
pub struct Goals {
    goals: Vec<Goal>,
}

impl Model for Goals {
    ghost use Rattle.std.specs.Prelude.{List};
    ghost use Rattle.std.specs.Coded.{codes, coded_list};
    ghost use Rattle.pl_state.specs.declared.goal.Goal.{Goal};
    ghost use Rattle.pl_state.specs.contracts.goal.Goal as row;

    ghost Value = { List Goal };

    ghost coded = { coded_list (Prim.hlevel (codes, row.the_row.coded)) };

    ghost view = { λ a. a.goals.items };
}

impl Goals {
    /// Nothing in the list; takes no memory.
    pub fn new(alloc: Global) -> Goals
        ensures { result ≡ [] }
    {
        Goals {
            goals: Vec::new(alloc),
        }
    }

    /// Over the given vector; takes no memory.
    pub fn from_vec(goals: Vec<Goal>) -> Goals
        ensures { result ≡ goals.items }
    {
        Goals { goals }
    }

    /// Gives the vector back; takes no memory.
    pub fn into_vec(self) -> Vec<Goal>
        ensures { result.items ≡ self }
    {
        let Goals { goals } = self;
        goals
    }

    pub fn as_slice(&self) -> &[Goal]
        ensures { result.now ≡ self.now }
    {
        self.goals.as_slice()
    }

    pub fn len(&self) -> usize
        ensures { result ≡ length self.now }
    {
        self.goals.len()
    }

    /// The goal at this place, from 0.
    pub fn get(&self, place: usize) -> Option<&Goal>
        ensures { option_map (λ goal. goal.now) result ≡ slice_get self.now place }
    {
        self.goals.get(place)
    }

    /// Adds a goal at the end; after `OutOfMemory` nothing was added.
    pub fn push(&mut self, goal: Goal) -> Result<(), OutOfMemory>
        ensures added { OnOk result (self.new ≡ self.old ++ goal ∷ []) }
        ensures unchanged { OnErr result (self.new ≡ self.old) }
    {
        self.goals.push(goal)?;
        Ok(())
    }

    pub fn copy(&self, alloc: Global) -> Result<Goals, OutOfMemory>
        ensures { IfOk result (λ made. made ≡ self.now) }
    {
        let mut goals = Vec::new(alloc);
        for goal in &self.goals {
            goals.push(goal.copy(alloc)?)?;
        }
        Ok(Goals { goals })
    }
}

/// What a provider says of a difference between old and new inputs.
#[derive(Clone, Copy, Debug, PartialEq, Eq)]
pub enum Changes {
    NoChange,
    SomeChange,
    NotKnown,
}

/// A provider's reply to the question what differs.
#[derive(Debug, Drop)]
pub struct Diffed {
    pub changes: Changes,
    /// The properties whose change asks for a replacement.
    pub replaces: Texts,
    pub delete_before_replace: bool,
}

impl Diffed {
    pub fn copy(&self) -> Result<Diffed, OutOfMemory>
        ensures { IfOk result (λ made. made ≡ self.now) }
    {
        Ok(Diffed {
            changes: self.changes,
            replaces: self.replaces.copy()?,
            delete_before_replace: self.delete_before_replace,
        })
    }
}
