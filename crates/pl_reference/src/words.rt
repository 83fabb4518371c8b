ghost use Rattle.std.specs.Prelude.{◌≡◌, [], ◌∷◌, ◌++◌, IfOk, is_none, is_some, length, None, OnErr, OnOk, slice_get};
ghost use Rattle.std.specs.Option.{option_copied};
ghost use Rattle.pl_reference.specs.Packages.{pairs_in, with_words, words_of};

use indexmap::IndexMap;
use pl_urn::Urn;
use pl_value::{OutOfMemory, Text, Words};
use std::alloc::Global;
use std::marker::Model;

/// Ids of things that are there already, each with the URN that it is imported as, seen as pairs.
#[derive(Debug, Drop)]
pub struct Imports {
    pairs: Vec<(Text, Urn)>,
}

impl Model for Imports {
    ghost use Rattle.std.specs.Prelude.{List, ℕ};

    ghost Value = { List (List ℕ × List ℕ) };

    ghost view = { λ a. a.pairs.items };
}

impl Imports {
    /// Nothing in the list; takes no memory.
    pub fn new(alloc: Global) -> Imports
        ensures { result ≡ [] }
    {
        Imports {
            pairs: Vec::new(alloc),
        }
    }

    /// Over the given vector; takes no memory.
    pub fn from_vec(pairs: Vec<(Text, Urn)>) -> Imports
        ensures { result ≡ pairs.items }
    {
        Imports { pairs }
    }

    /// Gives the vector back; takes no memory.
    pub fn into_vec(self) -> Vec<(Text, Urn)>
        ensures { result.items ≡ self }
    {
        let Imports { pairs } = self;
        pairs
    }

    pub fn as_slice(&self) -> &[(Text, Urn)]
        ensures { result.now ≡ self.now }
    {
        self.pairs.as_slice()
    }

    pub fn len(&self) -> usize
        ensures { result ≡ length self.now }
    {
        self.pairs.len()
    }

    /// The pair at this place, from 0.
    pub fn get(&self, place: usize) -> Option<&(Text, Urn)>
        ensures { option_copied result ≡ slice_get self.now place }
    {
        self.pairs.get(place)
    }

    /// Adds a pair at the end; after `OutOfMemory` nothing was added.
    pub fn push(&mut self, pair: (Text, Urn)) -> Result<(), OutOfMemory>
        ensures added { OnOk result (self.new ≡ self.old ++ pair ∷ []) }
        ensures unchanged { OnErr result (self.new ≡ self.old) }
    {
        self.pairs.push(pair)?;
        Ok(())
    }

    pub fn copy(&self) -> Result<Imports, OutOfMemory>
        ensures { IfOk result (λ made. made ≡ self.now) }
    {
        let mut pairs = Vec::new(*self.pairs.allocator());
        for pair in &self.pairs {
            pairs.push((pair.0.copy()?, pair.1.copy()?))?;
        }
        Ok(Imports { pairs })
    }
}

/// Packages, each with the words that start its provider, seen as pairs in the order in which they were added; a
/// package is found by an index.
#[derive(Debug, Drop)]
pub struct ProviderWords {
    words: IndexMap<String, Words>,
}

impl Model for ProviderWords {
    ghost use Rattle.std.specs.Prelude.{List, ℕ};
    ghost use Rattle.pl_reference.specs.Packages.{pairs_in};

    ghost Value = { List (List ℕ × List (List ℕ)) };

    ghost view = { λ a. pairs_in a.words };
}

impl ProviderWords {
    /// No package; takes no memory.
    pub fn new(alloc: Global) -> ProviderWords
        ensures { result ≡ [] }
    {
        ProviderWords {
            words: IndexMap::new(alloc),
        }
    }

    /// The number of packages.
    pub fn len(&self) -> usize
        ensures { result ≡ length self.now }
    {
        self.words.len()
    }

    /// The words of a package.
    pub fn words_of(&self, provided: &str) -> Option<&Words>
        ensures { option_copied result ≡ words_of self.now provided.now }
    {
        self.words.get(provided)
    }

    /// Adds a package at the end, and says whether it did: it does not where the package has words already. After
    /// `OutOfMemory` nothing was added.
    pub fn add(&mut self, provided: Text, words: Words) -> Result<bool, OutOfMemory>
        ensures answer { IfOk result (λ added. added ≡ is_none (words_of self.old provided)) }
        ensures added { OnOk result (self.new ≡ with_words provided words self.old) }
        ensures unchanged { OnErr result (self.new ≡ self.old) }
    {
        if has_words(&self.words, provided.as_str()) {
            return Ok(false);
        }
        put_words(&mut self.words, provided, words)?;
        Ok(true)
    }
}

fn has_words(words: &IndexMap<String, Words>, provided: &str) -> bool
    ensures { result ≡ is_some (words_of (pairs_in words.now) provided.now) }
{
    words.contains_key(provided)
}

fn put_words(
    words: &mut IndexMap<String, Words>,
    provided: Text,
    more: Words,
) -> Result<(), OutOfMemory>
    requires absent { words_of (pairs_in words.old) provided ≡ None }
    ensures added { OnOk result (pairs_in words.new ≡ pairs_in words.old ++ (provided, more) ∷ []) }
    ensures unchanged { OnErr result (pairs_in words.new ≡ pairs_in words.old) }
{
    words.insert(provided.into_string(), more)?;
    Ok(())
}
