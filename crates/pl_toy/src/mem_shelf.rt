ghost use Rattle.std.specs.Prelude.{◌≡◌, ◌≢◌, ◌≤◌, [], not, filter, is_none, length, vec_capacity, vec_len, Some, IfOk, OnOk, OnErr, bytes_eq};
ghost use Rattle.std.specs.Option.{option_copied};
ghost use Rattle.pl_world.specs.Counts.{Rose};
ghost use Rattle.pl_value.specs.Keys.{value_at};
ghost use Rattle.pl_toy.specs.Things.{held_by, no_things, with_new, with_thing, without_thing};

use crate::shelf::Shelf;
use pl_value::{Bytes, OutOfMemory, Text};
use pl_world::Trouble;
use std::alloc::Global;

/// What becomes of a call.
#[derive(Clone, Copy)]
enum Fate {
    Succeeds,
    /// It fails, and changes nothing.
    Fails,
    /// It fails, and its change arrives all the same.
    FailsAfter,
}

/// A shelf in memory. Some of its calls are to fail; a change among them may arrive all the same.
#[derive(Debug, Drop)]
pub struct MemShelf {
    things: Vec<(Text, Bytes)>,
    fails: Vec<u64>,
    arriving: Vec<u64>,
    calls: u64,
    faults: u64,
    ghost none_failed: { fails.items ≡ [] → faults ≡ 0 },
}

impl MemShelf {
    /// An empty shelf. The calls of these indices from 0 fail, and the changes by those that are in both lists arrive all
    /// the same. It takes no memory.
    pub fn new(alloc: Global, fails: Vec<u64>, arriving: Vec<u64>) -> MemShelf
        ensures nothing_there { ⟦<MemShelf as Shelf>⟧.things result ≡ Some no_things }
        ensures no_faults { ⟦<MemShelf as Shelf>⟧.faults result ≡ 0 }
    {
        MemShelf {
            things: Vec::new(alloc),
            fails,
            arriving,
            calls: 0,
            faults: 0,
        }
    }

    /// How many things are there.
    pub fn len(&self) -> usize
        ensures { result ≡ length self.now.things.items }
    {
        self.things.len()
    }

    /// How many calls have failed.
    pub fn faults(&self) -> u64
        ensures { result ≡ ⟦<MemShelf as Shelf>⟧.faults self.now }
    {
        self.faults
    }

    /// The calls that are to fail.
    pub fn fails(&self) -> &[u64]
        ensures { result.now ≡ [] → ⟦<MemShelf as Shelf>⟧.faults self.now ≡ 0 }
    {
        self.fails.as_slice()
    }

    // Counts a call, and says what is to become of it.
    fn next_fate(&mut self) -> Fate
        ensures rose { result ≢ Fate.Succeeds → Rose self.old.faults self.new.faults }
        ensures never_fall { self.old.faults ≤ self.new.faults }
        ensures things_stay { self.new.things.items ≡ self.old.things.items }
    {
        let call = self.calls;
        self.calls = call.saturating_add(1);
        if !self.fails.contains(&call) {
            return Fate::Succeeds;
        }
        self.faults = self.faults.saturating_add(1);
        if self.arriving.contains(&call) {
            Fate::FailsAfter
        } else {
            Fate::Fails
        }
    }
}

// The bytes of the thing, if it is there.
fn found<'a>(things: &'a [(Text, Bytes)], id: &str) -> Option<&'a Bytes>
    ensures { option_copied result ≡ value_at id.now things.now }
{
    for (name, bytes) in things {
        if name.as_str() == id {
            return Some(bytes);
        }
    }
    None
}

// Takes the thing away, if it is there.
fn take_away(things: &mut Vec<(Text, Bytes)>, id: &str)
    ensures others { things.new.items ≡ filter (λ thing. not (bytes_eq thing.0 id.now)) things.old.items }
    ensures taken { held_by things.new.items ≡ without_thing id.now (held_by things.old.items) }
    ensures room_stays { vec_capacity things.new ≡ vec_capacity things.old }
    ensures fewer { vec_len things.new ≤ vec_len things.old }
{
    things.retain(|thing| thing.0.as_str() != id);
}

// Puts the thing there, in the place of one of this id.
fn put_there(
    things: &mut Vec<(Text, Bytes)>,
    alloc: Global,
    id: &str,
    bytes: &[u8],
) -> Result<(), OutOfMemory>
    ensures put { OnOk result (held_by things.new.items ≡ with_thing id.now bytes.now (held_by things.old.items)) }
    ensures unchanged { OnErr result (things.new.items ≡ things.old.items) }
{
    let thing = (Text::from_str(alloc, id)?, Bytes::from_slice(alloc, bytes)?);
    things.reserve(1)?;
    take_away(things, id);
    things.push(thing)?;
    Ok(())
}

// Puts the thing there unless one of this id is there, and says whether it did.
fn add_new(
    things: &mut Vec<(Text, Bytes)>,
    alloc: Global,
    id: &str,
    bytes: &[u8],
) -> Result<bool, OutOfMemory>
    ensures is_new { IfOk result (λ is_new. is_new ≡ is_none (held_by things.old.items id.now)) }
    ensures added { OnOk result (held_by things.new.items ≡ with_new id.now bytes.now (held_by things.old.items)) }
    ensures unchanged { OnErr result (things.new.items ≡ things.old.items) }
{
    if found(things.as_slice(), id).is_some() {
        return Ok(false);
    }
    put_there(things, alloc, id, bytes)?;
    Ok(true)
}

impl Shelf for MemShelf {
    ghost use Rattle.std.specs.Prelude.{Some};
    ghost use Rattle.pl_toy.specs.Things.{held_by};

    ghost faults = { λ shelf. shelf.faults };

    ghost things = { λ shelf. Some (held_by shelf.things.items) };

    fn get(&mut self, alloc: Global, id: &str) -> Result<Option<Bytes>, Trouble> {
        let Fate::Succeeds = self.next_fate() else {
            return Err(Trouble::Failed);
        };
        match found(self.things.as_slice(), id) {
            Some(bytes) => Ok(Some(Bytes::from_slice(alloc, bytes.as_slice())?)),
            None => Ok(None),
        }
    }

    fn put_new(&mut self, alloc: Global, id: &str, bytes: &[u8]) -> Result<bool, Trouble> {
        match self.next_fate() {
            Fate::Succeeds => Ok(add_new(&mut self.things, alloc, id, bytes)?),
            Fate::Fails => Err(Trouble::Failed),
            Fate::FailsAfter => {
                add_new(&mut self.things, alloc, id, bytes)?;
                Err(Trouble::Failed)
            }
        }
    }

    fn put(&mut self, alloc: Global, id: &str, bytes: &[u8]) -> Result<(), Trouble> {
        match self.next_fate() {
            Fate::Succeeds => Ok(put_there(&mut self.things, alloc, id, bytes)?),
            Fate::Fails => Err(Trouble::Failed),
            Fate::FailsAfter => {
                put_there(&mut self.things, alloc, id, bytes)?;
                Err(Trouble::Failed)
            }
        }
    }

    fn remove(&mut self, _alloc: Global, id: &str) -> Result<(), Trouble> {
        match self.next_fate() {
            Fate::Succeeds => {
                take_away(&mut self.things, id);
                Ok(())
            }
            Fate::Fails => Err(Trouble::Failed),
            Fate::FailsAfter => {
                take_away(&mut self.things, id);
                Err(Trouble::Failed)
            }
        }
    }
}
