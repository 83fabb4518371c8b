ghost use Rattle.std.specs.Prelude.{◌≡◌, ◌↔◌, [], ◌∷◌, ◌++◌, Contains, IfOk, IsTrue, length, OnErr, OnOk, option_map, slice_get};

use crate::memory::OutOfMemory;
use crate::text::Text;
use std::alloc::Global;
use std::marker::Model;

/// Texts in order, seen as the list of the texts' bytes.
#[derive(Debug, Drop)]
pub struct Texts {
    texts: Vec<Text>,
}

impl Model for Texts {
    ghost use Rattle.std.specs.Prelude.{List, ℕ};

    ghost Value = { List (List ℕ) };

    ghost view = { λ a. a.texts.items };
}

impl Texts {
    /// No text; takes no memory.
    pub fn new(alloc: Global) -> Texts
        ensures { result ≡ [] }
    {
        Texts {
            texts: Vec::new(alloc),
        }
    }

    /// Texts over the given vector; takes no memory.
    pub fn from_vec(texts: Vec<Text>) -> Texts
        ensures { result ≡ texts.items }
    {
        Texts { texts }
    }

    /// Gives the vector back; takes no memory.
    pub fn into_vec(self) -> Vec<Text>
        ensures { result.items ≡ self }
    {
        let Texts { texts } = self;
        texts
    }

    pub fn as_slice(&self) -> &[Text]
        ensures { result.now ≡ self.now }
    {
        self.texts.as_slice()
    }

    pub fn len(&self) -> usize
        ensures { result ≡ length self.now }
    {
        self.texts.len()
    }

    /// The text at this place, from 0.
    pub fn get(&self, place: usize) -> Option<&Text>
        ensures { option_map (λ text. text.now) result ≡ slice_get self.now place }
    {
        self.texts.get(place)
    }

    /// Adds a text at the end; after `OutOfMemory` nothing was added.
    pub fn push(&mut self, text: Text) -> Result<(), OutOfMemory>
        ensures added { OnOk result (self.new ≡ self.old ++ text ∷ []) }
        ensures unchanged { OnErr result (self.new ≡ self.old) }
    {
        self.texts.push(text)?;
        Ok(())
    }

    pub fn copy(&self) -> Result<Texts, OutOfMemory>
        ensures { IfOk result (λ made. made ≡ self.now) }
    {
        let mut texts = Vec::new(*self.texts.allocator());
        for text in &self.texts {
            texts.push(text.copy()?)?;
        }
        Ok(Texts { texts })
    }
}
