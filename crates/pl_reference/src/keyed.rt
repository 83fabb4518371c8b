ghost use Rattle.std.specs.Prelude.{◌≡◌, [], ◌∷◌, ◌++◌, IfOk, length, OnErr, OnOk, slice_get};
ghost use Rattle.std.specs.Option.{option_copied};

use crate::urns::Urns;
use pl_value::{OutOfMemory, Text, Texts};
use std::alloc::Global;
use std::marker::Model;

/// URNs by the property that they belong to, seen as pairs.
#[derive(Debug, Drop)]
pub struct KeyedUrns {
    pairs: Vec<(Text, Urns)>,
}

impl Model for KeyedUrns {
    ghost use Rattle.std.specs.Prelude.{List, ℕ};

    ghost Value = { List (List ℕ × List (List ℕ)) };

    ghost view = { λ a. a.pairs.items };
}

impl KeyedUrns {
    /// Nothing in the list; takes no memory.
    pub fn new(alloc: Global) -> KeyedUrns
        ensures { result ≡ [] }
    {
        KeyedUrns {
            pairs: Vec::new(alloc),
        }
    }

    /// Over the given vector; takes no memory.
    pub fn from_vec(pairs: Vec<(Text, Urns)>) -> KeyedUrns
        ensures { result ≡ pairs.items }
    {
        KeyedUrns { pairs }
    }

    /// Gives the vector back; takes no memory.
    pub fn into_vec(self) -> Vec<(Text, Urns)>
        ensures { result.items ≡ self }
    {
        let KeyedUrns { pairs } = self;
        pairs
    }

    pub fn as_slice(&self) -> &[(Text, Urns)]
        ensures { result.now ≡ self.now }
    {
        self.pairs.as_slice()
    }

    pub fn len(&self) -> usize
        ensures { result ≡ length self.now }
    {
        self.pairs.len()
    }

    /// The pair at this place, from 0.
    pub fn get(&self, place: usize) -> Option<&(Text, Urns)>
        ensures { option_copied result ≡ slice_get self.now place }
    {
        self.pairs.get(place)
    }

    /// Adds a pair at the end; after `OutOfMemory` nothing was added.
    pub fn push(&mut self, pair: (Text, Urns)) -> Result<(), OutOfMemory>
        ensures added { OnOk result (self.new ≡ self.old ++ pair ∷ []) }
        ensures unchanged { OnErr result (self.new ≡ self.old) }
    {
        self.pairs.push(pair)?;
        Ok(())
    }

    pub fn copy(&self) -> Result<KeyedUrns, OutOfMemory>
        ensures { IfOk result (λ made. made ≡ self.now) }
    {
        let mut pairs = Vec::new(*self.pairs.allocator());
        for pair in &self.pairs {
            pairs.push((pair.0.copy()?, pair.1.copy()?))?;
        }
        Ok(KeyedUrns { pairs })
    }
}

/// Texts by the property that they belong to, seen as pairs.
#[derive(Debug, Drop)]
pub struct KeyedTexts {
    pairs: Vec<(Text, Texts)>,
}

impl Model for KeyedTexts {
    ghost use Rattle.std.specs.Prelude.{List, ℕ};

    ghost Value = { List (List ℕ × List (List ℕ)) };

    ghost view = { λ a. a.pairs.items };
}

impl KeyedTexts {
    /// Nothing in the list; takes no memory.
    pub fn new(alloc: Global) -> KeyedTexts
        ensures { result ≡ [] }
    {
        KeyedTexts {
            pairs: Vec::new(alloc),
        }
    }

    /// Over the given vector; takes no memory.
    pub fn from_vec(pairs: Vec<(Text, Texts)>) -> KeyedTexts
        ensures { result ≡ pairs.items }
    {
        KeyedTexts { pairs }
    }

    /// Gives the vector back; takes no memory.
    pub fn into_vec(self) -> Vec<(Text, Texts)>
        ensures { result.items ≡ self }
    {
        let KeyedTexts { pairs } = self;
        pairs
    }

    pub fn as_slice(&self) -> &[(Text, Texts)]
        ensures { result.now ≡ self.now }
    {
        self.pairs.as_slice()
    }

    pub fn len(&self) -> usize
        ensures { result ≡ length self.now }
    {
        self.pairs.len()
    }

    /// The pair at this place, from 0.
    pub fn get(&self, place: usize) -> Option<&(Text, Texts)>
        ensures { option_copied result ≡ slice_get self.now place }
    {
        self.pairs.get(place)
    }

    /// Adds a pair at the end; after `OutOfMemory` nothing was added.
    pub fn push(&mut self, pair: (Text, Texts)) -> Result<(), OutOfMemory>
        ensures added { OnOk result (self.new ≡ self.old ++ pair ∷ []) }
        ensures unchanged { OnErr result (self.new ≡ self.old) }
    {
        self.pairs.push(pair)?;
        Ok(())
    }

    pub fn copy(&self) -> Result<KeyedTexts, OutOfMemory>
        ensures { IfOk result (λ made. made ≡ self.now) }
    {
        let mut pairs = Vec::new(*self.pairs.allocator());
        for pair in &self.pairs {
            pairs.push((pair.0.copy()?, pair.1.copy()?))?;
        }
        Ok(KeyedTexts { pairs })
    }
}
