ghost use Rattle.std.specs.Str.{bytes_eq};
ghost use Rattle.std.specs.List.{list_any};
ghost use Rattle.std.specs.Option.{option_copied};
ghost use Rattle.std.specs.Prelude.{find, ◌≡◌, [], ◌∷◌, ◌++◌, IfOk, length, OnErr, OnOk, option_map, slice_get, take};

use crate::entry::Entry;
use pl_value::OutOfMemory;
use std::alloc::Global;
use std::marker::Model;

/// The entries of a snapshot, in order, seen as their list.
#[derive(Debug, Drop)]
pub struct Entries {
    rows: Vec<Entry>,
}

impl Model for Entries {
    ghost use Rattle.std.specs.Prelude.{List};
    ghost use Rattle.std.specs.Coded.{codes, coded_list};
    ghost use Rattle.pl_state.specs.declared.entry.Entry.{Entry};
    ghost use Rattle.pl_state.specs.contracts.entry.Entry as row;

    ghost Value = { List Entry };

    ghost coded = { coded_list (Prim.hlevel (codes, row.the_row.coded)) };

    ghost view = { λ a. a.rows.items };
}

impl Entries {
    /// Nothing in the list; takes no memory.
    pub fn new(alloc: Global) -> Entries
        ensures { result ≡ [] }
    {
        Entries {
            rows: Vec::new(alloc),
        }
    }

    /// Over the given vector; takes no memory.
    pub fn from_vec(rows: Vec<Entry>) -> Entries
        ensures { result ≡ rows.items }
    {
        Entries { rows }
    }

    /// Gives the vector back; takes no memory.
    pub fn into_vec(self) -> Vec<Entry>
        ensures { result.items ≡ self }
    {
        let Entries { rows } = self;
        rows
    }

    pub fn as_slice(&self) -> &[Entry]
        ensures { result.now ≡ self.now }
    {
        self.rows.as_slice()
    }

    pub fn len(&self) -> usize
        ensures { result ≡ length self.now }
    {
        self.rows.len()
    }

    /// The entry at this place, from 0.
    pub fn get(&self, place: usize) -> Option<&Entry>
        ensures { option_map (λ entry. entry.now) result ≡ slice_get self.now place }
    {
        self.rows.get(place)
    }

    /// Adds a entry at the end; after `OutOfMemory` nothing was added.
    pub fn push(&mut self, entry: Entry) -> Result<(), OutOfMemory>
        ensures added { OnOk result (self.new ≡ self.old ++ entry ∷ []) }
        ensures unchanged { OnErr result (self.new ≡ self.old) }
    {
        self.rows.push(entry)?;
        Ok(())
    }

    pub fn copy(&self, alloc: Global) -> Result<Entries, OutOfMemory>
        ensures { IfOk result (λ made. made ≡ self.now) }
    {
        let mut rows = Vec::new(alloc);
        for entry in &self.rows {
            rows.push(entry.copy(alloc)?)?;
        }
        Ok(Entries { rows })
    }
}

impl Entries {
    /// The first entry of this URN.
    pub fn find_urn(&self, urn: &str) -> Option<&Entry>
        ensures { option_map (λ entry. entry.now) result ≡ find (λ entry. bytes_eq entry.urn urn.now) self.now }
    {
        self.rows.iter().find(|entry| entry.urn.as_str() == urn)
    }

    /// Whether an entry has this URN.
    pub fn has_urn(&self, urn: &str) -> bool
        ensures { result ≡ list_any (λ entry. bytes_eq entry.urn urn.now) self.now }
    {
        self.rows.iter().any(|entry| entry.urn.as_str() == urn)
    }

    /// Takes the entries from this place on away; takes no memory.
    pub fn truncate(&mut self, len: usize)
        ensures { self.new ≡ take len self.old }
    {
        self.rows.truncate(len);
    }
}
