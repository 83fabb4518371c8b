ghost use Rattle.std.specs.Prelude.{◌≡◌, [], ◌∷◌, ◌++◌, IfOk, length, OnErr, OnOk, option_map, slice_get};

use crate::memory::OutOfMemory;
use crate::text::Text;
use std::alloc::Global;
use std::marker::Model;

/// The words of a command, in order, seen as the list of the words' bytes.
#[derive(Debug, Drop)]
pub struct Words {
    words: Vec<Text>,
}

impl Model for Words {
    ghost use Rattle.std.specs.Prelude.{List, ℕ};

    ghost Value = { List (List ℕ) };

    ghost view = { λ a. a.words.items };
}

impl Words {
    /// No word; takes no memory.
    pub fn new(alloc: Global) -> Words
        ensures { result ≡ [] }
    {
        Words {
            words: Vec::new(alloc),
        }
    }

    /// Words over the given vector; takes no memory.
    pub fn from_vec(words: Vec<Text>) -> Words
        ensures { result ≡ words.items }
    {
        Words { words }
    }

    /// Gives the vector back; takes no memory.
    pub fn into_vec(self) -> Vec<Text>
        ensures { result.items ≡ self }
    {
        let Words { words } = self;
        words
    }

    pub fn len(&self) -> usize
        ensures { result ≡ length self.now }
    {
        self.words.len()
    }

    /// The word at this place, from 0.
    pub fn get(&self, place: usize) -> Option<&Text>
        ensures { option_map (λ word. word.now) result ≡ slice_get self.now place }
    {
        self.words.get(place)
    }

    /// Adds a word at the end; after `OutOfMemory` nothing was added.
    pub fn push(&mut self, word: Text) -> Result<(), OutOfMemory>
        ensures added { OnOk result (self.new ≡ self.old ++ word ∷ []) }
        ensures unchanged { OnErr result (self.new ≡ self.old) }
    {
        self.words.push(word)?;
        Ok(())
    }

    pub fn copy(&self) -> Result<Words, OutOfMemory>
        ensures { IfOk result (λ made. made ≡ self.now) }
    {
        let mut words = Vec::new(*self.words.allocator());
        for word in &self.words {
            words.push(word.copy()?)?;
        }
        Ok(Words { words })
    }
}
