ghost use Rattle.std.specs.Prelude.{◌≡◌, ◌+◌, ◌<◌, ◌≤◌, ◌^◌, [], find, IfErr, IfOk, length, map, nat_le, OnErr, OnOk, option_map, slice_get, Some};
ghost use Rattle.pl_snap.specs.Calls as spec;
ghost use Rattle.pl_snap.specs.Model.{entries_of, stamps_of, state_of, waiting_of};
ghost use Rattle.pl_snap.specs.Rows.{is_row};
ghost use Rattle.pl_snap.specs.Stamps.{AreBelow, AreDistinct, all_stamps};

use crate::fresh::Fresh;
use crate::recorded::Recorded;
use crate::rows::OldRows;
use crate::tag::{Tag, new_tags};
use crate::waiting::Waitings;
use pl_state::{Entries, Entry, Pending, Pendings, Snapshot};
use pl_value::{Fields, OutOfMemory, Text};
use std::alloc::Global;
use std::marker::Model;

/// The state of a run, kept step by step: the recorded entries, what is left of the state at the start, and what is
/// pending.
#[derive(Debug, Drop)]
pub struct Snap {
    stack: Text,
    fresh: Recorded,
    rows: OldRows,
    base_pending: Waitings,
    own_pending: Waitings,
    rest: Text,
    next_stamp: u64,
}

impl Model for Snap {
    ghost use Rattle.std.specs.Coded.{codes};
    ghost use Rattle.pl_value.specs.contracts.value.Value as value;
    ghost use Rattle.pl_snap.specs.Model.{Merged};
    ghost use Rattle.pl_snap.specs.Stamps.{IsKept};

    ghost Value = { Merged };

    ghost coded = { Prim.hlevel (codes, value.the_row.coded) };

    ghost view = { λ a. record {
      stack = a.stack;
      fresh = a.fresh;
      rows = a.rows;
      base_pending = a.base_pending;
      own_pending = a.own_pending;
      rest = a.rest;
      next_stamp = a.next_stamp;
    } };

    ghost invariant = { λ a. IsKept a.fresh a.rows a.base_pending a.own_pending a.next_stamp };
}

// Whether so many stamps are left after the last one that is taken.
fn has_stamps(next: u64, wanted: usize) -> bool
    ensures { result ≡ nat_le (next + wanted) spec.most_stamps }
{
    const MOST: u64 = (1 << 62) - 10_000;
    match next.checked_add(wanted as u64) {
        None => false,
        Some(end) => end <= MOST,
    }
}

impl Snap {
    /// A state with nothing recorded yet. After `OutOfMemory` it comes back.
    pub fn new(alloc: Global, base: Snapshot) -> Result<Snap, (Snapshot, OutOfMemory)>
        ensures made { IfOk result (λ made. made ≡ spec.merged_of base) }
        ensures stamps_left { IfOk result (λ made. made.next_stamp ≤ spec.most_stamps) }
        ensures back { IfErr result (λ refused. refused.0 ≡ base) }
    {
        let rows = base.entries.len();
        let operations = base.pending.len();
        if !has_stamps(rows as u64, operations) {
            return Err((base, OutOfMemory));
        }
        let Ok(row_tags) = new_tags(alloc, rows as u64, 0) else {
            return Err((base, OutOfMemory));
        };
        let Ok(tags) = new_tags(alloc, operations as u64, rows as u64) else {
            return Err((base, OutOfMemory));
        };
        let Snapshot {
            stack,
            entries,
            pending,
            rest,
        } = base;
        Ok(Snap {
            stack,
            fresh: Recorded::new(alloc),
            rows: OldRows::new(entries.into_vec(), row_tags),
            base_pending: Waitings::new(pending.into_vec(), tags),
            own_pending: Waitings::new(Vec::new(alloc), Vec::new(alloc)),
            rest,
            next_stamp: rows as u64 + operations as u64,
        })
    }

    /// Records the entry of a goal. The row of its claim leaves or, where it is marked, stays as one to be deleted;
    /// where its URN differs from the entry's, it is turned into the entry's in all rows. After `OutOfMemory`, which
    /// also comes where the stamps end, the entry comes back and nothing was changed.
    pub fn record_entry(
        &mut self,
        alloc: Global,
        goal: u64,
        entry: Entry,
        claim: Option<u64>,
        marked: bool,
    ) -> Result<(), (Entry, OutOfMemory)>
        ensures recorded { OnOk result (self.new ≡ spec.with_entry goal entry claim marked self.old) }
        ensures stamps_left { OnOk result (self.new.next_stamp ≤ spec.most_stamps) }
        ensures unchanged { OnErr result (self.new ≡ self.old) }
        ensures back { IfErr result (λ refused. refused.0 ≡ entry) }
    {
        let stamp = self.next_stamp;
        let places = self.rows.len();
        if !has_stamps(stamp, places) || !has_stamps(stamp + places as u64, 2) {
            return Err((entry, OutOfMemory));
        }
        let Ok(turned) = self.rows.turned_if(alloc, claim, &entry.urn, stamp + 2) else {
            return Err((entry, OutOfMemory));
        };
        match self.fresh.add(Fresh { goal, stamp, entry }) {
            Err((one, refused)) => Err((one.entry, refused)),
            Ok(()) => {
                self.rows.take_rows(turned);
                self.rows.take_claim(claim, marked, stamp + 1);
                self.next_stamp = stamp + 2 + places as u64;
                Ok(())
            }
        }
    }

    /// Puts outputs into the entry that was recorded of a goal, those that it names kept as secrets. After
    /// `OutOfMemory`, which also comes where the stamps end, the outputs come back and nothing was changed.
    pub fn put_outputs(
        &mut self,
        alloc: Global,
        goal: u64,
        outputs: Fields,
    ) -> Result<(), (Fields, OutOfMemory)>
        ensures put { OnOk result (self.new ≡ spec.with_outputs goal outputs self.old) }
        ensures stamps_left { OnOk result (self.new.next_stamp ≤ spec.most_stamps) }
        ensures unchanged { OnErr result (self.new ≡ self.old) }
        ensures back { IfErr result (λ refused. refused.0 ≡ outputs) }
    {
        let stamp = self.next_stamp;
        if !has_stamps(stamp, 1) {
            return Err((outputs, OutOfMemory));
        }
        match self.fresh.put_told(alloc, goal, stamp, outputs) {
            Err(refused) => Err(refused),
            Ok(()) => {
                self.next_stamp = stamp + 1;
                Ok(())
            }
        }
    }

    /// Takes out the row with this number, which was deleted or dropped; takes no memory.
    pub fn retire(&mut self, row: u64)
        ensures { self.new ≡ spec.without_row row self.old }
    {
        self.rows.retire(row);
    }

    /// Marks the row with this number, which was deleted to be made anew; takes no memory.
    pub fn mark_replaced(&mut self, row: u64)
        requires { self.old.next_stamp < 2 ^ 62 }
        ensures { self.new ≡ spec.with_replaced row self.old }
    {
        let stamp = self.next_stamp;
        self.rows.mark_replaced(row, stamp);
        self.next_stamp = stamp + 1;
    }

    /// Sets the entries whole, where none was recorded, and gives the former ones; takes no memory.
    pub fn set_rows(&mut self, entries: Entries) -> Entries
        requires none_recorded { self.old.fresh ≡ [] }
        requires stamps_left { self.old.next_stamp + length entries ≤ 2 ^ 62 }
        ensures set { self.new ≡ spec.with_rows entries self.old }
        ensures former { result ≡ entries_of self.old }
    {
        let stamp = self.next_stamp;
        self.next_stamp = stamp + entries.len() as u64;
        self.rows.set(entries, stamp)
    }

    /// Takes out the pending operation at a place in the state at the start; takes no memory.
    pub fn clear_base(&mut self, at: u64)
        ensures { self.new ≡ spec.without_pending at self.old }
    {
        self.base_pending.remove(at);
    }

    /// Adds an operation that was begun. After `OutOfMemory`, which also comes where the stamps end, it comes back and
    /// nothing was changed.
    pub fn open_pending(
        &mut self,
        ticket: u64,
        pending: Pending,
    ) -> Result<(), (Pending, OutOfMemory)>
        ensures opened { OnOk result (self.new ≡ spec.with_opened ticket pending self.old) }
        ensures stamps_left { OnOk result (self.new.next_stamp ≤ spec.most_stamps) }
        ensures unchanged { OnErr result (self.new ≡ self.old) }
        ensures back { IfErr result (λ refused. refused.0 ≡ pending) }
    {
        let stamp = self.next_stamp;
        if !has_stamps(stamp, 1) {
            return Err((pending, OutOfMemory));
        }
        let tag = Tag {
            number: ticket,
            stamp,
        };
        match self.own_pending.add(tag, pending) {
            Err(refused) => Err(refused),
            Ok(()) => {
                self.next_stamp = stamp + 1;
                Ok(())
            }
        }
    }

    /// Takes out the operation with this ticket, which was answered; takes no memory.
    pub fn close_pending(&mut self, ticket: u64)
        ensures { self.new ≡ spec.without_opened ticket self.old }
    {
        self.own_pending.remove(ticket);
    }
}

impl Snap {
    /// The number of entries.
    pub fn rows(&self) -> u64
        ensures { result ≡ length (entries_of self.now) }
    {
        self.fresh.len() as u64 + self.rows.len() as u64
    }

    /// The number of pending operations.
    pub fn pendings(&self) -> u64
        ensures { result ≡ length (waiting_of self.now) }
    {
        self.base_pending.len() as u64 + self.own_pending.len() as u64
    }

    /// The number of entries, and of pending operations other than updates and deletes.
    pub fn count(&self) -> u64
        ensures { result ≡ spec.count_of self.now }
    {
        let counted = self.base_pending.counted() as u64 + self.own_pending.counted() as u64;
        self.rows() + counted
    }

    /// The state as it is now, in memory of its own.
    pub fn view(&self, alloc: Global) -> Result<Snapshot, OutOfMemory>
        ensures { IfOk result (λ state. state ≡ state_of self.now) }
    {
        let stack = self.stack.copy()?;
        let rest = self.rest.copy()?;
        let mut entries = Entries::new(alloc);
        self.fresh.copy_into(alloc, &mut entries)?;
        self.rows.copy_into(alloc, &mut entries)?;
        let mut pending = Pendings::new(alloc);
        self.base_pending.copy_into(alloc, &mut pending)?;
        self.own_pending.copy_into(alloc, &mut pending)?;
        Ok(Snapshot {
            stack,
            entries,
            pending,
            rest,
        })
    }

    /// The entry at a place among the entries, from 0.
    pub fn entry_at(&self, at: u64) -> &Entry
        requires { at < length (entries_of self.now) }
        ensures { slice_get (entries_of self.now) at ≡ Some result.now }
    {
        let recorded = self.fresh.len();
        match self.fresh.get(at as usize) {
            Some(one) => &one.entry,
            None => self.rows.entry_at(at as usize - recorded),
        }
    }

    /// The stamp of the entry at a place among the entries, from 0.
    pub fn stamp_at(&self, at: u64) -> u64
        requires { at < length (entries_of self.now) }
        ensures { slice_get (stamps_of self.now) at ≡ Some result }
    {
        let recorded = self.fresh.len();
        match self.fresh.get(at as usize) {
            Some(one) => one.stamp,
            None => self.rows.stamp_at(at as usize - recorded),
        }
    }

    /// The pending operation at a place among them, from 0.
    pub fn pending_at(&self, at: u64) -> &Pending
        requires { at < length (waiting_of self.now) }
        ensures { option_map (λ one. one.pending) (slice_get (waiting_of self.now) at) ≡ Some result.now }
    {
        let first = self.base_pending.len();
        let at = at as usize;
        if at < first {
            self.base_pending.pending_at(at)
        } else {
            self.own_pending.pending_at(at - first)
        }
    }

    /// The stamp of the pending operation at a place among them, from 0.
    pub fn pending_stamp_at(&self, at: u64) -> u64
        requires { at < length (waiting_of self.now) }
        ensures { option_map (λ one. one.stamp) (slice_get (waiting_of self.now) at) ≡ Some result }
    {
        let first = self.base_pending.len();
        let at = at as usize;
        if at < first {
            self.base_pending.stamp_at(at)
        } else {
            self.own_pending.stamp_at(at - first)
        }
    }

    /// The stamp that comes next.
    pub fn next_stamp(&self) -> u64
        ensures { result ≡ self.now.next_stamp }
    {
        self.next_stamp
    }

    /// The stamps tell all entries and pending operations apart, and those that come later are still free. Nothing is
    /// done.
    pub fn stamps_distinct(&self)
        ensures distinct { AreDistinct (all_stamps self.now) }
        ensures later_free { AreBelow (all_stamps self.now) self.now.next_stamp }
    {
        let _ = &self.next_stamp;
    }

    /// The entry that was recorded of a goal first, as it stands now.
    pub fn recorded(&self, goal: u64) -> Option<&Entry>
        ensures { option_map (λ entry. entry.now) result ≡ option_map (λ one. one.entry) (find (spec.is_goal goal) self.now.fresh) }
    {
        match self.fresh.first_of(goal) {
            None => None,
            Some(one) => Some(&one.entry),
        }
    }

    /// The entry of the row with this number in the state at the start, as it stands now, if it is left.
    pub fn row(&self, number: u64) -> Option<&Entry>
        ensures { option_map (λ entry. entry.now) result ≡ option_map (λ row. row.entry) (find (is_row number) self.now.rows) }
    {
        self.rows.entry_of(number)
    }
}
