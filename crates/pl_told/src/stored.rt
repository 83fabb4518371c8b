ghost use Rattle.std.specs.Prelude.{◌≡◌, ◌+◌, ◌*◌, ◌<◌, ◌^◌, find, length, OnErr, OnOk};
ghost use Rattle.std.specs.Option.{option_copied};
ghost use Rattle.pl_lemmas.specs.Words.{numbered};
ghost use Rattle.pl_model.specs.Claims as claims;
ghost use Rattle.pl_model.specs.Legal.{last_of};
ghost use Rattle.pl_told.specs.Index.{has_n};
ghost use Rattle.pl_told.specs.Paths.{HaveAllPaths};
ghost use Rattle.pl_told.specs.Stored.{nothing_stored, stored_with};

use crate::change::Change;
use crate::index::{add_heard, add_if, goal_at, heard_at, number_in, place_in};
use indexmap::IndexMap;
use pl_model::Heard;
use pl_state::Goal;
use pl_value::OutOfMemory;
use std::alloc::Global;
use std::marker::Model;

/// Goals and told requests that stand for good.
#[derive(Debug, Drop)]
pub struct Stored {
    /// By number.
    goals: Vec<Goal>,
    /// The number of the newest goal of each URN.
    numbers: IndexMap<String, u64>,
    /// In the order in which they were told.
    heard: Vec<Heard>,
    /// The place of the newest request of each number.
    places: IndexMap<u64, u64>,
    /// The number of the newest request, 0 where there is none.
    last: u64,
    /// For how many requests more there is memory, with the goals that they make.
    room: u64,
}

impl Model for Stored {
    ghost use Rattle.std.specs.Coded.{codes};
    ghost use Rattle.pl_state.specs.contracts.goal.Goal as goal_row;
    ghost use Rattle.pl_model.specs.contracts.heard.Heard as heard_row;
    ghost use Rattle.pl_told.specs.Stored.{IsStored, Standing, stored_by};

    ghost Value = { Standing };

    ghost coded = { Prim.hlevel (codes, goal_row.the_row.coded, heard_row.the_row.coded) };

    ghost view = { stored_by };

    ghost invariant = { IsStored };
}

impl Stored {
    /// No goal and no request yet; takes no memory.
    pub fn new(alloc: Global) -> Stored
        ensures { result ≡ nothing_stored }
    {
        Stored {
            goals: Vec::new(alloc),
            numbers: IndexMap::new(alloc),
            heard: Vec::new(alloc),
            places: IndexMap::new(alloc),
            last: 0,
            room: 0,
        }
    }

    /// The number of goals.
    pub fn len(&self) -> u64
        ensures count { result ≡ length self.now.goals }
        ensures few { result + 2 * self.now.room < 2 ^ 63 }
    {
        self.goals.len() as u64
    }

    /// The number of the newest goal with a URN.
    pub fn goal_number(&self, urn: &str) -> Option<u64>
        ensures { result ≡ claims.goal_number self.now.goals urn.now }
    {
        number_in(&self.numbers, urn)
    }

    /// The goal of a number.
    pub fn goal(&self, number: u64) -> Option<&Goal>
        ensures { option_copied result ≡ numbered self.now.goals number }
    {
        goal_at(self.goals.as_slice(), number)
    }

    /// The newest told request of a number.
    pub fn asked(&self, n: u64) -> Option<&Heard>
        ensures { option_copied result ≡ find (has_n n) self.now.asked }
    {
        match place_in(&self.places, n) {
            None => None,
            Some(place) => heard_at(self.heard.as_slice(), place),
        }
    }

    /// The number of told requests.
    pub fn told_count(&self) -> u64
        ensures count { result ≡ length self.now.asked }
        ensures few { result + self.now.room < 2 ^ 63 }
    {
        self.heard.len() as u64
    }

    /// The told request before which so many were told.
    pub fn told(&self, place: u64) -> Option<&Heard>
        ensures { option_copied result ≡ numbered self.now.asked place }
    {
        heard_at(self.heard.as_slice(), place)
    }

    /// The number of the newest request, 0 where none was told.
    pub fn last_number(&self) -> u64
        ensures { result ≡ last_of self.now.asked }
    {
        self.last
    }

    /// The paths of the goals can be read. Nothing is done.
    pub fn have_paths(&self)
        ensures { HaveAllPaths self.now.goals }
    {
        let _ = &self.goals;
    }

    /// Takes the memory that two more requests want, with the goals that they make.
    pub fn reserve(&mut self) -> Result<(), OutOfMemory>
        ensures room { OnOk result (self.new ≡ record self.old { room = 2 }) }
        ensures unchanged { OnErr result (self.new ≡ self.old) }
    {
        self.goals.reserve(4)?;
        self.numbers.reserve(4)?;
        self.heard.reserve(2)?;
        self.places.reserve(2)?;
        self.room = 2;
        Ok(())
    }

    /// Adds what a told request comes to; takes no memory.
    pub fn add(&mut self, change: Change)
        requires { 0 < self.old.room }
        ensures { self.new ≡ stored_with change self.old }
    {
        let (default, own, heard) = change.into_parts();
        add_if(&mut self.goals, &mut self.numbers, default);
        add_if(&mut self.goals, &mut self.numbers, own);
        self.last = add_heard(&mut self.heard, &mut self.places, heard);
        self.room -= 1;
    }
}
