ghost use Rattle.std.specs.Prelude.{◌≡◌, ◌↔◌, IfOk, IsTrue, length, string_bytes};

use crate::memory::OutOfMemory;
use std::alloc::Global;
use std::marker::Model;

/// A text, seen as the list of its bytes, which are UTF-8.
#[derive(Debug, Drop)]
pub struct Text {
    text: String,
}

impl Model for Text {
    ghost use Rattle.std.specs.Prelude.{List, ℕ, string_bytes};

    ghost Value = { List ℕ };

    ghost view = { λ a. string_bytes a.text };
}

impl Text {
    /// A text over the given string; takes no memory.
    pub fn from_string(text: String) -> Text
        ensures { result ≡ string_bytes text }
    {
        Text { text }
    }

    /// A text with the same bytes in memory of its own.
    pub fn from_str(alloc: Global, text: &str) -> Result<Text, OutOfMemory>
        ensures { IfOk result (λ made. made ≡ text.now) }
    {
        let text = String::from_str(alloc, text)?;
        Ok(Text { text })
    }

    /// Gives the string back; takes no memory.
    pub fn into_string(self) -> String
        ensures { string_bytes result ≡ self }
    {
        let Text { text } = self;
        text
    }

    pub fn as_str(&self) -> &str
        ensures { result.now ≡ self.now }
    {
        self.text.as_str()
    }

    pub fn len(&self) -> usize
        ensures { result ≡ length self.now }
    {
        self.text.len()
    }

    pub fn is_empty(&self) -> bool
        ensures { IsTrue result ↔ (length self.now ≡ 0) }
    {
        self.text.len() == 0
    }

    /// Whether both have the same bytes.
    pub fn same_as(&self, other: &Text) -> bool
        ensures { IsTrue result ↔ (self.now ≡ other.now) }
    {
        self.text.as_str() == other.text.as_str()
    }

    pub fn copy(&self) -> Result<Text, OutOfMemory>
        ensures { IfOk result (λ made. made ≡ self.now) }
    {
        let text = self.text.clone()?;
        Ok(Text { text })
    }
}
