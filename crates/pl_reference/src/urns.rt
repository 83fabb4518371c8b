ghost use Rattle.std.specs.Prelude.{◌≡◌, [], ◌∷◌, ◌++◌, IfOk, length, OnErr, OnOk, option_map, slice_get};

use pl_urn::Urn;
use pl_value::OutOfMemory;
use std::alloc::Global;
use std::marker::Model;

/// URNs in order, seen as the list of their texts.
#[derive(Debug, Drop)]
pub struct Urns {
    urns: Vec<Urn>,
}

impl Model for Urns {
    ghost use Rattle.std.specs.Prelude.{List, ℕ};

    ghost Value = { List (List ℕ) };

    ghost view = { λ a. a.urns.items };
}

impl Urns {
    /// Nothing in the list; takes no memory.
    pub fn new(alloc: Global) -> Urns
        ensures { result ≡ [] }
    {
        Urns {
            urns: Vec::new(alloc),
        }
    }

    /// Over the given vector; takes no memory.
    pub fn from_vec(urns: Vec<Urn>) -> Urns
        ensures { result ≡ urns.items }
    {
        Urns { urns }
    }

    /// Gives the vector back; takes no memory.
    pub fn into_vec(self) -> Vec<Urn>
        ensures { result.items ≡ self }
    {
        let Urns { urns } = self;
        urns
    }

    pub fn as_slice(&self) -> &[Urn]
        ensures { result.now ≡ self.now }
    {
        self.urns.as_slice()
    }

    pub fn len(&self) -> usize
        ensures { result ≡ length self.now }
    {
        self.urns.len()
    }

    /// The urn at this place, from 0.
    pub fn get(&self, place: usize) -> Option<&Urn>
        ensures { option_map (λ urn. urn.now) result ≡ slice_get self.now place }
    {
        self.urns.get(place)
    }

    /// Adds a urn at the end; after `OutOfMemory` nothing was added.
    pub fn push(&mut self, urn: Urn) -> Result<(), OutOfMemory>
        ensures added { OnOk result (self.new ≡ self.old ++ urn ∷ []) }
        ensures unchanged { OnErr result (self.new ≡ self.old) }
    {
        self.urns.push(urn)?;
        Ok(())
    }

    pub fn copy(&self) -> Result<Urns, OutOfMemory>
        ensures { IfOk result (λ made. made ≡ self.now) }
    {
        let mut urns = Vec::new(*self.urns.allocator());
        for urn in &self.urns {
            urns.push(urn.copy()?)?;
        }
        Ok(Urns { urns })
    }
}
