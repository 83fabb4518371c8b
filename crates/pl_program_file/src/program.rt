ghost use Rattle.std.specs.Prelude.{◌≡◌, [], ◌∷◌, ◌++◌, length, OnErr, OnOk, slice_get};
ghost use Rattle.std.specs.Option.{option_copied};

use pl_value::{Fields, OutOfMemory, Text, Texts};
use std::alloc::Global;
use std::marker::Model;

/// What a program registers, in order, and what it tells in the end.
#[derive(Debug, Drop)]
pub struct Program {
    pub resources: Resources,
    /// The stack's outputs, in which references stand as texts.
    pub outputs: Option<Fields>,
}

/// A resource of a program.
#[derive(Debug, Drop)]
pub struct Resource {
    pub name: Text,
    /// The type, as `toy:index:Thing`.
    pub kind: Text,
    pub custom: bool,
    /// The inputs, in which references stand as texts.
    pub inputs: Fields,
    pub links: Links,
    pub settings: Settings,
}

/// The names of earlier resources in a resource's options.
#[derive(Debug, Drop)]
pub struct Links {
    pub parent: Option<Text>,
    pub provider: Option<Text>,
    /// The resource whose deletion takes this one along.
    pub deleted_with: Option<Text>,
    pub depends_on: Texts,
}

/// The options of a resource that go into its registration as they are.
#[derive(Debug, Drop)]
pub struct Settings {
    pub protect: bool,
    pub aliases: Texts,
    pub ignore_changes: Texts,
    pub delete_before_replace: Option<bool>,
    pub retain_on_delete: bool,
    pub additional_secret_outputs: Texts,
    pub import_id: Option<Text>,
    pub version: Option<Text>,
}

/// The resources of a program, in order, seen as their list.
#[derive(Debug, Drop)]
pub struct Resources {
    rows: Vec<Resource>,
}

impl Model for Resources {
    ghost use Rattle.std.specs.Prelude.{List};
    ghost use Rattle.std.specs.Coded.{codes, coded_list};
    ghost use Rattle.pl_program_file.specs.declared.program.Resource.{Resource};
    ghost use Rattle.pl_program_file.specs.contracts.program.Resource as row;

    ghost Value = { List Resource };

    ghost coded = { coded_list (Prim.hlevel (codes, row.the_row.coded)) };

    ghost view = { λ a. a.rows.items };
}

impl Resources {
    /// No resource; takes no memory.
    pub fn new(alloc: Global) -> Resources
        ensures { result ≡ [] }
    {
        Resources {
            rows: Vec::new(alloc),
        }
    }

    pub fn as_slice(&self) -> &[Resource]
        ensures { result.now ≡ self.now }
    {
        self.rows.as_slice()
    }

    pub fn len(&self) -> usize
        ensures { result ≡ length self.now }
    {
        self.rows.len()
    }

    /// The resource at this place, from 0.
    pub fn get(&self, place: usize) -> Option<&Resource>
        ensures { option_copied result ≡ slice_get self.now place }
    {
        self.rows.get(place)
    }

    /// Adds a resource at the end; after `OutOfMemory` nothing was added.
    pub fn push(&mut self, resource: Resource) -> Result<(), OutOfMemory>
        ensures added { OnOk result (self.new ≡ self.old ++ resource ∷ []) }
        ensures unchanged { OnErr result (self.new ≡ self.old) }
    {
        self.rows.push(resource)?;
        Ok(())
    }
}
