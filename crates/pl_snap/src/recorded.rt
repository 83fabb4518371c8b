ghost use Rattle.std.specs.Prelude.{◌≡◌, ◌==◌, ◌++◌, [], ◌∷◌, ℕ, find, if◌then◌else◌, IfErr, length, map, None, OnErr, OnOk, position, slice_get, Some};
ghost use Rattle.std.specs.Option.{option_copied, option_or};
ghost use Rattle.pl_snap.specs.Calls.{is_goal, with_told};
ghost use Rattle.pl_snap.specs.Lists.{changed_first};
ghost use Rattle.pl_snap.specs.Places.{place_in};

use crate::fresh::{Fresh, copy_fresh, put_at};
use pl_state::Entries;
use pl_value::{Fields, OutOfMemory, mark_secrets};
use std::alloc::Global;
use std::collections::BTreeMap;
use std::marker::Model;

/// Recorded entries in order of recording, seen as their list.
#[derive(Debug, Drop)]
pub struct Recorded {
    entries: Vec<Fresh>,
    /// By goal, the place of the first entry that was recorded of it.
    places: BTreeMap<u64, usize>,
}

impl Model for Recorded {
    ghost use Rattle.std.specs.Prelude.{List};
    ghost use Rattle.std.specs.Coded.{codes};
    ghost use Rattle.pl_value.specs.contracts.value.Value as value;
    ghost use Rattle.pl_snap.specs.declared.fresh.Fresh.{Fresh};
    ghost use Rattle.pl_snap.specs.Places.{LeadsToFirst};

    ghost Value = { List Fresh };

    ghost coded = { Prim.hlevel (codes, value.the_row.coded) };

    ghost view = { λ a. a.entries.items };

    ghost invariant = { λ a. LeadsToFirst a.places a.entries.items };
}

/// Keeps the place of what was recorded of a goal, where none is kept of it.
fn keep_place(places: &mut BTreeMap<u64, usize>, goal: u64, place: usize) -> Result<(), OutOfMemory>
    ensures kept { OnOk result ((other : ℕ) → place_in places.new other
        ≡ option_or (place_in places.old other) (if goal == other then Some place else None)) }
    ensures unchanged { OnErr result ((other : ℕ) → place_in places.new other ≡ place_in places.old other) }
{
    if !places.contains_key(&goal) {
        places.insert(goal, place)?;
    }
    Ok(())
}

impl Recorded {
    /// Nothing recorded yet; takes no memory.
    pub fn new(alloc: Global) -> Recorded
        ensures { result ≡ [] }
    {
        Recorded {
            entries: Vec::new(alloc),
            places: BTreeMap::new(alloc),
        }
    }

    pub fn len(&self) -> usize
        ensures { result ≡ length self.now }
    {
        self.entries.len()
    }

    /// What was recorded at a place, from 0.
    pub fn get(&self, at: usize) -> Option<&Fresh>
        ensures { option_copied result ≡ slice_get self.now at }
    {
        self.entries.get(at)
    }

    /// The place of the first entry that was recorded of a goal.
    fn place_of(&self, goal: u64) -> Option<usize>
        ensures { result ≡ position (is_goal goal) self.now }
    {
        self.places.get(&goal).copied()
    }

    /// What was recorded of a goal first.
    pub fn first_of(&self, goal: u64) -> Option<&Fresh>
        ensures { option_copied result ≡ find (is_goal goal) self.now }
    {
        match self.place_of(goal) {
            None => None,
            Some(place) => self.get(place),
        }
    }

    /// Adds an entry at the end. Without memory it comes back and nothing was added.
    pub fn add(&mut self, one: Fresh) -> Result<(), (Fresh, OutOfMemory)>
        ensures added { OnOk result (self.new ≡ self.old ++ one ∷ []) }
        ensures unchanged { OnErr result (self.new ≡ self.old) }
        ensures back { IfErr result (λ refused. refused.0 ≡ one) }
    {
        let place = self.entries.len();
        if self.entries.reserve(1).is_err() {
            return Err((one, OutOfMemory));
        }
        match keep_place(&mut self.places, one.goal, place) {
            Err(refused) => Err((one, refused)),
            Ok(()) => {
                self.entries.push(one).unwrap();
                Ok(())
            }
        }
    }

    /// Puts outputs into the first entry that was recorded of a goal, if there is one; those that it names are kept as
    /// secrets. After `OutOfMemory` the outputs come back and nothing was changed.
    pub fn put_told(
        &mut self,
        alloc: Global,
        goal: u64,
        stamp: u64,
        outputs: Fields,
    ) -> Result<(), (Fields, OutOfMemory)>
        ensures put { OnOk result (self.new ≡ changed_first (is_goal goal) (with_told stamp outputs) self.old) }
        ensures unchanged { OnErr result (self.new ≡ self.old) }
        ensures back { IfErr result (λ refused. refused.0 ≡ outputs) }
    {
        let Some(place) = self.place_of(goal) else {
            return Ok(());
        };
        let keys = &self.entries[place].entry.additional_secret_outputs;
        match mark_secrets(alloc, outputs, keys) {
            Err(refused) => Err(refused),
            Ok(outputs) => {
                put_at(&mut self.entries, place, stamp, outputs);
                Ok(())
            }
        }
    }

    /// Adds copies of the entries to others.
    pub fn copy_into(&self, alloc: Global, into: &mut Entries) -> Result<(), OutOfMemory>
        ensures { OnOk result (into.new ≡ into.old ++ map (λ one. one.entry) self.now) }
    {
        copy_fresh(alloc, self.entries.as_slice(), into)
    }
}
