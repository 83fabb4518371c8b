ghost use Rattle.std.specs.Prelude.{◌≡◌, ◌-◌, ◌<◌, false, IfOk, length, nat_eq, OnErr, OnOk, option_map, true};
ghost use Rattle.std.specs.List.{IsDistinct};
ghost use Rattle.pl_lemmas.specs.Words.{first_in, has_number, numbered, only_if, some_passes};
ghost use Rattle.pl_records.specs.Columns.{fresh_in, nothing_kept, was_kept, with_cleared, with_host_gone, with_kept, with_posted, with_recorded, with_removed, with_stop, without_kept, without_posted, without_recorded};

use crate::index::{
    Keeps, Numbers, add, add_kept, fresh, has, newest, number_at, take_kept, take_newest,
};
use indexmap::{IndexMap, IndexSet};
use pl_value::OutOfMemory;
use std::alloc::Global;
use std::marker::Model;

/// What was recorded, removed, cleared and posted, and whether the host has ended and the run was stopped.
#[derive(Debug, Drop)]
pub struct Records {
    /// The numbers of goals.
    recorded: Numbers,
    /// Those of the recorded goals that needed no operation.
    kept: Keeps,
    /// Rows of the state at the start.
    removed: Numbers,
    /// Pending operations of the state at the start.
    cleared: Numbers,
    /// The numbers of requests.
    posted: Numbers,
    host_gone: bool,
    stopped: bool,
    /// Whether there is memory for one more recording and one more post.
    ready: bool,
    /// For how many removals more there is memory.
    removals: u64,
    /// For how many clears more there is memory.
    clears: u64,
}

impl Model for Records {
    ghost use Rattle.std.specs.Coded.{codes};
    ghost use Rattle.pl_records.specs.Columns.{Kept};

    ghost Value = { Kept };

    ghost coded = { Prim.hlevel codes };

    ghost use Rattle.pl_records.specs.Kept.{kept_by, IsKept};

    ghost view = { kept_by };

    ghost invariant = { IsKept };
}

impl Records {
    /// Nothing yet, with the memory for so many removals and clears.
    pub fn new(alloc: Global, rows: u64, pending: u64) -> Result<Records, OutOfMemory>
        ensures { IfOk result (λ records. records ≡ nothing_kept rows pending) }
    {
        let removed = IndexSet::with_capacity(alloc, rows as usize)?;
        let cleared = IndexSet::with_capacity(alloc, pending as usize)?;
        Ok(Records {
            recorded: IndexSet::new(alloc),
            kept: IndexMap::new(alloc),
            removed,
            cleared,
            posted: IndexSet::new(alloc),
            host_gone: false,
            stopped: false,
            ready: false,
            removals: rows,
            clears: pending,
        })
    }

    /// Takes the memory that one more recording and one more post want.
    pub fn prepare(&mut self) -> Result<(), OutOfMemory>
        ensures ready { OnOk result (self.new ≡ record self.old { ready = true }) }
        ensures unchanged { OnErr result (self.new ≡ self.old) }
    {
        self.recorded.reserve(1)?;
        self.kept.reserve(1)?;
        self.posted.reserve(1)?;
        self.ready = true;
        Ok(())
    }

    /// Records a goal that is kept without an operation; takes no memory.
    pub fn keep_prepared(&mut self, goal: u64, fresh: Option<u128>)
        requires ready { self.old.ready ≡ true }
        requires unrecorded { has_number self.old.records.recorded goal ≡ false }
        ensures { self.new ≡ record self.old { records = with_kept goal fresh self.old.records; ready = false } }
    {
        add_kept(&mut self.kept, goal, fresh);
        add(&mut self.recorded, goal);
        self.ready = false;
    }

    /// Records a goal by a reply; takes no memory.
    pub fn record_prepared(&mut self, goal: u64)
        requires ready { self.old.ready ≡ true }
        requires unrecorded { has_number self.old.records.recorded goal ≡ false }
        ensures recorded { self.new ≡ record self.old { records = with_recorded goal self.old.records; ready = false } }
        ensures unkept { was_kept self.new.records.kept goal ≡ false }
    {
        add(&mut self.recorded, goal);
        self.ready = false;
    }

    /// A request was answered; takes no memory.
    pub fn post_prepared(&mut self, n: u64)
        requires ready { self.old.ready ≡ true }
        requires unposted { has_number self.old.records.posted n ≡ false }
        ensures { self.new ≡ record self.old { records = with_posted n self.old.records; ready = false } }
    {
        add(&mut self.posted, n);
        self.ready = false;
    }

    /// A row was deleted or dropped; takes no memory.
    pub fn remove(&mut self, row: u64)
        requires room { 0 < self.old.removals }
        requires unremoved { has_number self.old.records.removed row ≡ false }
        ensures { self.new ≡ record self.old { records = with_removed row self.old.records; removals = self.old.removals - 1 } }
    {
        add(&mut self.removed, row);
        self.removals -= 1;
    }

    /// A pending operation was cleared; takes no memory.
    pub fn clear(&mut self, at: u64)
        requires room { 0 < self.old.clears }
        requires uncleared { has_number self.old.records.cleared at ≡ false }
        ensures { self.new ≡ record self.old { records = with_cleared at self.old.records; clears = self.old.clears - 1 } }
    {
        add(&mut self.cleared, at);
        self.clears -= 1;
    }

    /// The host has given its last; takes no memory.
    pub fn end_host(&mut self)
        ensures { self.new ≡ record self.old { records = with_host_gone self.old.records } }
    {
        self.host_gone = true;
    }

    /// The run was stopped; takes no memory.
    pub fn stop(&mut self)
        ensures { self.new ≡ record self.old { records = with_stop self.old.records } }
    {
        self.stopped = true;
    }
}

impl Records {
    /// Takes back the newest recording, which was a keep; takes no memory.
    pub fn retract_keep(&mut self)
        requires { first_in self.old.records.recorded ≡ option_map (λ one. one.0) (first_in self.old.records.kept) }
        ensures { self.new ≡ record self.old { records = without_kept self.old.records } }
    {
        take_kept(&mut self.kept);
        take_newest(&mut self.recorded);
    }

    /// Takes back the newest recording, which was by a reply; takes no memory.
    pub fn retract_record(&mut self)
        requires { some_passes (was_kept self.old.records.kept) (first_in self.old.records.recorded) ≡ false }
        ensures { self.new ≡ record self.old { records = without_recorded self.old.records } }
    {
        take_newest(&mut self.recorded);
    }

    /// Takes back the newest post; takes no memory.
    pub fn retract_post(&mut self)
        ensures { self.new ≡ record self.old { records = without_posted self.old.records } }
    {
        take_newest(&mut self.posted);
    }
}

impl Records {
    /// Whether a goal is recorded.
    pub fn is_recorded(&self, goal: u64) -> bool
        ensures { result ≡ has_number self.now.records.recorded goal }
    {
        has(&self.recorded, goal)
    }

    /// The number that the id of a goal is made of, if it was kept with one.
    pub fn fresh(&self, goal: u64) -> Option<u128>
        ensures number { result ≡ fresh_in self.now.records.kept goal }
        ensures recorded { result ≡ only_if (has_number self.now.records.recorded goal) (fresh_in self.now.records.kept goal) }
    {
        fresh(&self.kept, goal)
    }

    /// How many goals are recorded; none of them is recorded twice.
    pub fn recorded_count(&self) -> u64
        ensures count { result ≡ length self.now.records.recorded }
        ensures distinct { IsDistinct nat_eq self.now.records.recorded }
    {
        self.recorded.len() as u64
    }

    /// The goal that so many were recorded before.
    pub fn recorded_at(&self, place: u64) -> Option<u64>
        ensures { result ≡ numbered self.now.records.recorded place }
    {
        number_at(&self.recorded, place)
    }

    /// The goal that was recorded last.
    pub fn newest_recorded(&self) -> Option<u64>
        ensures { result ≡ first_in self.now.records.recorded }
    {
        newest(&self.recorded)
    }

    /// Whether a row was deleted or dropped.
    pub fn was_removed(&self, row: u64) -> bool
        ensures { result ≡ has_number self.now.records.removed row }
    {
        has(&self.removed, row)
    }

    /// How many rows were deleted or dropped; none of them was twice.
    pub fn removed_count(&self) -> u64
        ensures count { result ≡ length self.now.records.removed }
        ensures distinct { IsDistinct nat_eq self.now.records.removed }
    {
        self.removed.len() as u64
    }

    /// Whether a pending operation was cleared.
    pub fn was_cleared(&self, at: u64) -> bool
        ensures { result ≡ has_number self.now.records.cleared at }
    {
        has(&self.cleared, at)
    }

    /// Whether a request was answered.
    pub fn was_posted(&self, n: u64) -> bool
        ensures { result ≡ has_number self.now.records.posted n }
    {
        has(&self.posted, n)
    }

    /// Whether the host has given its last.
    pub fn host_gone(&self) -> bool
        ensures { result ≡ self.now.records.host_gone }
    {
        self.host_gone
    }

    /// Whether the run was stopped.
    pub fn stopped(&self) -> bool
        ensures { result ≡ self.now.records.stopped }
    {
        self.stopped
    }
}
