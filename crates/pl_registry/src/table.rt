ghost use Rattle.std.specs.Prelude.{◌≡◌, ◌<◌, [], ◌∷◌, ◌++◌, false, IfOk, length, OnErr, OnOk};
ghost use Rattle.pl_registry.specs.Lanes as spec;

use crate::lane::{Lane, count_from, free_place};
use crate::words::words_for;
use pl_events::{LaneView, Source};
use pl_reference::ProviderWords;
use pl_value::{OutOfMemory, Words};
use std::alloc::Global;
use std::marker::Model;

/// The provider children of a run, in order of their start.
#[derive(Debug, Drop)]
pub struct LaneTable {
    lanes: Vec<Lane>,
    half: bool,
    parallel: u64,
    commands: ProviderWords,
}

impl Model for LaneTable {
    ghost use Rattle.pl_registry.specs.Lanes.{Table};

    ghost Value = { Table };

    ghost view = { λ a. record { lanes = a.lanes.items; half = a.half; parallel = a.parallel; commands = a.commands } };
}

impl LaneTable {
    /// No child yet; takes no memory. A source may have as many children as `parallel` says.
    pub fn new(alloc: Global, parallel: u64, commands: ProviderWords) -> LaneTable
        ensures { result ≡ spec.new_table parallel commands }
    {
        LaneTable {
            lanes: Vec::new(alloc),
            half: false,
            parallel,
            commands,
        }
    }

    /// Adds a child that was just started, and gives its number.
    pub fn add(&mut self, source: Source) -> Result<u64, OutOfMemory>
        ensures number { IfOk result (λ lane. lane ≡ length self.old.lanes) }
        ensures added { OnOk result (self.new ≡ record self.old { lanes = self.old.lanes ++ spec.new_lane source ∷ [] }) }
        ensures unchanged { OnErr result (self.new ≡ self.old) }
    {
        let lane = self.lanes.len() as u64;
        self.lanes.push(Lane::new(source))?;
        Ok(lane)
    }

    /// The least configured child of a source that is neither at work nor lost.
    pub fn lane_free(&self, source: Source) -> Option<u64>
        ensures { result ≡ spec.lane_free self.now.lanes source }
    {
        let place = free_place(self.lanes.as_slice(), source)?;
        Some(place as u64)
    }

    /// Whether one more child of a source may be started.
    pub fn may_start(&self, source: Source) -> bool
        ensures { result ≡ spec.may_start self.now source }
    {
        (count_from(self.lanes.as_slice(), source) as u64) < self.parallel
    }

    /// The words that start the provider of a package.
    pub fn lane_words(&self, alloc: Global, provided: &str) -> Result<Words, OutOfMemory>
        ensures { IfOk result (λ words. words ≡ spec.lane_words self.now.commands provided.now) }
    {
        words_for(alloc, &self.commands, provided)
    }

    /// The child is at work; takes no memory.
    pub fn send_out(&mut self, lane: u64)
        requires { lane < length self.old.lanes }
        ensures { self.new ≡ spec.with_lane spec.sent_out lane self.old }
    {
        self.lanes[lane as usize].out = true;
    }

    /// The child is at work no more, and is configured or not; takes no memory.
    pub fn come_home(&mut self, lane: u64, configured: bool)
        requires { lane < length self.old.lanes }
        ensures { self.new ≡ spec.with_lane (spec.at_home configured) lane self.old }
    {
        let child = &mut self.lanes[lane as usize];
        child.out = false;
        child.configured = configured;
    }

    /// The child is lost; takes no memory.
    pub fn lose_lane(&mut self, lane: u64)
        requires { lane < length self.old.lanes }
        ensures { self.new ≡ spec.with_lane spec.gone lane self.old }
    {
        self.lanes[lane as usize].lost = true;
    }

    /// Says whether the host's writing half is at hand; takes no memory.
    pub fn set_half(&mut self, home: bool)
        ensures { self.new ≡ record self.old { half = home } }
    {
        self.half = home;
    }

    /// What was said last of the host's writing half.
    pub fn half_home(&self) -> bool
        ensures { result ≡ self.now.half }
    {
        self.half
    }
}

impl LaneView for LaneTable {
    ghost use Rattle.pl_registry.specs.Lanes.{told_by};

    ghost told = { told_by };

    fn lane_free(&self, source: Source) -> Option<u64> {
        LaneTable::lane_free(self, source)
    }

    fn may_start(&self, source: Source) -> bool {
        LaneTable::may_start(self, source)
    }

    fn half_home(&self) -> bool {
        LaneTable::half_home(self)
    }
}
