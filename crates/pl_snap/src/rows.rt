ghost use Rattle.std.specs.Prelude.{◌≡◌, ◌+◌, ◌<◌, ◌≤◌, ◌^◌, ◌++◌, find, IfOk, length, map, OnOk, option_and_then, option_map, slice_get, Some, true, unwrap_or};
ghost use Rattle.pl_snap.specs.Lists.{changed_at, changed_first, without_first};
ghost use Rattle.pl_snap.specs.Rows as spec;
ghost use Rattle.pl_turning.specs.Turning.{turned_entry};

use crate::tag::{Tag, place_of};
use pl_state::{Entries, Entry};
use pl_turning::{has_mention, is_same, turn_entry};
use pl_urn::Urn;
use pl_value::OutOfMemory;
use std::alloc::Global;
use std::marker::Model;
use std::mem;

/// The rows that are left of a state, in their order, seen as their list; or entries that were set whole.
#[derive(Debug, Drop)]
pub struct OldRows {
    entries: Vec<Entry>,
    /// One for each entry, their numbers rising; none where the entries were set whole.
    tags: Vec<Tag>,
    /// The stamp of the first entry, where the entries were set whole.
    set_at: Option<u64>,
}

impl Model for OldRows {
    ghost use Rattle.std.specs.Coded.{codes};
    ghost use Rattle.pl_value.specs.contracts.value.Value as value;
    ghost use Rattle.std.specs.Prelude.{◌≡◌, ◌≤◌, ◌^◌, List, length, true};
    ghost use Rattle.pl_snap.specs.Model.{Row};
    ghost use Rattle.pl_snap.specs.Rows.{fits, rise_from, rows_in, set_end};

    ghost Value = { List Row };

    ghost coded = { Prim.hlevel (codes, value.the_row.coded) };

    ghost view = { λ a. rows_in a.set_at a.tags.items a.entries.items };

    ghost invariant = { λ a. (fits a.set_at a.tags.items a.entries.items ≡ true) × (set_end a.set_at (length a.entries.items) ≤ 2 ^ 62) × (rise_from 0 a.tags.items ≡ true) };
}

fn turn_entries(
    alloc: Global,
    entries: &[Entry],
    old: &Urn,
    new: &Urn,
) -> Result<Vec<Entry>, OutOfMemory>
    ensures { IfOk result (λ made. made.items ≡ map (λ entry. turned_entry entry (record { old = old.now; new = new.now })) entries.now) }
{
    let mut made = Vec::new(alloc);
    for entry in entries {
        let entry = turn_entry(alloc, entry, old, new)?;
        made.push(entry)?;
    }
    Ok(made)
}

fn turn_tag(old: &Urn, entry: &Entry, tag: Tag, new_stamp: u64) -> Tag
    ensures { result ≡ spec.turned_tag old.now entry.now new_stamp tag }
{
    let stamp = if has_mention(old, entry) {
        new_stamp
    } else {
        tag.stamp
    };
    Tag {
        number: tag.number,
        stamp,
    }
}

fn turn_tags(
    alloc: Global,
    entries: &[Entry],
    tags: &[Tag],
    old: &Urn,
    first: u64,
) -> Result<Vec<Tag>, OutOfMemory>
    requires tagged { length tags.now ≡ length entries.now }
    requires stamps_fit { first + length entries.now < 2 ^ 64 }
    ensures { IfOk result (λ made. made.items ≡ spec.turned_tags old.now first tags.now entries.now) }
{
    let mut made = Vec::new(alloc);
    for (place, entry) in entries.iter().enumerate() {
        let tag = turn_tag(old, entry, tags[place], first + place as u64);
        made.push(tag)?;
    }
    Ok(made)
}

fn doom(entries: &mut Vec<Entry>, place: usize)
    requires { place < length entries.old.items }
    ensures { entries.new.items ≡ changed_at spec.doomed place entries.old.items }
{
    entries[place].doomed = true;
}

fn replace(entries: &mut Vec<Entry>, place: usize)
    requires { place < length entries.old.items }
    ensures { entries.new.items ≡ changed_at spec.replaced place entries.old.items }
{
    entries[place].pending_replacement = true;
}

fn restamp(tags: &mut Vec<Tag>, place: usize, stamp: u64)
    requires { place < length tags.old.items }
    ensures { tags.new.items ≡ changed_at (spec.stamped stamp) place tags.old.items }
{
    tags[place].stamp = stamp;
}

fn entry_in(entries: &[Entry], place: usize) -> Option<&Entry>
    ensures { option_map (λ entry. entry.now) result ≡ slice_get entries.now place }
{
    entries.get(place)
}

fn copy_rows(alloc: Global, rows: &[Entry], into: &mut Entries) -> Result<(), OutOfMemory>
    ensures { OnOk result (into.new ≡ into.old ++ rows.now) }
{
    for row in rows {
        let entry = row.copy(alloc)?;
        into.push(entry)?;
    }
    Ok(())
}

impl OldRows {
    /// Rows with a tag for each; takes no memory.
    pub fn new(entries: Vec<Entry>, tags: Vec<Tag>) -> OldRows
        requires tagged { length tags.items ≡ length entries.items }
        requires rising { spec.rise_from 0 tags.items ≡ true }
        ensures { result ≡ spec.tagged_rows tags.items entries.items }
    {
        OldRows {
            entries,
            tags,
            set_at: None,
        }
    }

    pub fn len(&self) -> usize
        ensures { result ≡ length self.now }
    {
        self.entries.len()
    }

    /// The entry of the row at a place, from 0.
    pub fn entry_at(&self, at: usize) -> &Entry
        requires { at < length self.now }
        ensures { option_map (λ row. row.entry) (slice_get self.now at) ≡ Some result.now }
    {
        &self.entries[at]
    }

    /// The stamp of the row at a place, from 0.
    pub fn stamp_at(&self, at: usize) -> u64
        requires { at < length self.now }
        ensures { option_map (λ row. row.stamp) (slice_get self.now at) ≡ Some result }
    {
        match self.set_at {
            Some(first) => first + at as u64,
            None => self.tags[at].stamp,
        }
    }

    /// The entry of the row with this number in the state at the start, if it is left.
    pub fn entry_of(&self, number: u64) -> Option<&Entry>
        ensures { option_map (λ entry. entry.now) result ≡ option_map (λ row. row.entry) (find (spec.is_row number) self.now) }
    {
        let place = place_of(self.tags.as_slice(), number)?;
        entry_in(self.entries.as_slice(), place)
    }

    /// The rows with the URN of a claim turned into another one, with new stamps from the given one on; None where the
    /// claim is not left, and where it has that URN.
    pub fn turned_by(
        &self,
        alloc: Global,
        claim: u64,
        urn: &Urn,
        first: u64,
    ) -> Result<Option<OldRows>, OutOfMemory>
        requires { first + length self.now < 2 ^ 64 }
        ensures { IfOk result (λ made. made ≡ option_map (λ turning. spec.turned_rows turning first self.now) (option_and_then (spec.turning_of urn.now) (find (spec.is_row claim) self.now))) }
    {
        let Some(row) = self.entry_of(claim) else {
            return Ok(None);
        };
        if is_same(&row.urn, urn) {
            return Ok(None);
        }
        let rows = self.entries.as_slice();
        let tags = turn_tags(alloc, rows, self.tags.as_slice(), &row.urn, first)?;
        let entries = turn_entries(alloc, rows, &row.urn, urn)?;
        Ok(Some(OldRows::new(entries, tags)))
    }

    /// The same for an entry of this URN that is recorded on a claim, if it has one.
    pub fn turned_if(
        &self,
        alloc: Global,
        claim: Option<u64>,
        urn: &Urn,
        first: u64,
    ) -> Result<Option<OldRows>, OutOfMemory>
        requires { first + length self.now < 2 ^ 64 }
        ensures { IfOk result (λ made. unwrap_or made self.now ≡ spec.rows_after urn.now claim first self.now) }
    {
        match claim {
            None => Ok(None),
            Some(number) => self.turned_by(alloc, number, urn, first),
        }
    }

    /// Puts other rows in their place, if there are any; takes no memory.
    pub fn take_rows(&mut self, rows: Option<OldRows>)
        ensures { self.new ≡ unwrap_or rows self.old }
    {
        if let Some(rows) = rows {
            *self = rows;
        }
    }

    /// Takes the row with this number out, if it is left; takes no memory.
    pub fn retire(&mut self, number: u64)
        ensures { self.new ≡ without_first (spec.is_row number) self.old }
    {
        if let Some(place) = place_of(self.tags.as_slice(), number) {
            self.tags.remove(place);
            self.entries.remove(place);
        }
    }

    /// Marks the row with this number as one to be deleted, if it is left; takes no memory.
    pub fn mark_doomed(&mut self, number: u64, new_stamp: u64)
        ensures { self.new ≡ changed_first (spec.is_row number) (spec.doomed_row new_stamp) self.old }
    {
        if let Some(place) = place_of(self.tags.as_slice(), number) {
            restamp(&mut self.tags, place, new_stamp);
            doom(&mut self.entries, place);
        }
    }

    /// Marks the row with this number as one that is to be made anew, if it is left; takes no memory.
    pub fn mark_replaced(&mut self, number: u64, new_stamp: u64)
        ensures { self.new ≡ changed_first (spec.is_row number) (spec.replaced_row new_stamp) self.old }
    {
        if let Some(place) = place_of(self.tags.as_slice(), number) {
            restamp(&mut self.tags, place, new_stamp);
            replace(&mut self.entries, place);
        }
    }

    /// Takes the claim of a recorded entry out, or marks it as one to be deleted; takes no memory.
    pub fn take_claim(&mut self, claim: Option<u64>, marked: bool, new_stamp: u64)
        ensures { self.new ≡ spec.claim_taken claim marked new_stamp self.old }
    {
        match claim {
            None => {}
            Some(number) => {
                if marked {
                    self.mark_doomed(number, new_stamp);
                } else {
                    self.retire(number);
                }
            }
        }
    }

    /// Sets the entries whole, stamped from a stamp on, and gives the former ones; takes no memory.
    pub fn set(&mut self, entries: Entries, first: u64) -> Entries
        requires { first + length entries ≤ 2 ^ 62 }
        ensures set { self.new ≡ spec.set_rows first entries }
        ensures former { result ≡ map (λ row. row.entry) self.old }
    {
        let former = mem::replace(&mut self.entries, entries.into_vec());
        self.tags.clear();
        self.set_at = Some(first);
        Entries::from_vec(former)
    }

    /// Adds copies of the entries to others.
    pub fn copy_into(&self, alloc: Global, into: &mut Entries) -> Result<(), OutOfMemory>
        ensures { OnOk result (into.new ≡ into.old ++ map (λ row. row.entry) self.now) }
    {
        copy_rows(alloc, self.entries.as_slice(), into)
    }
}
