ghost use Rattle.std.specs.Prelude.{◌≡◌, ◌<◌, ◌^◌, is_some, length, OnErr, OnOk, option_and_then, slice_get, true};
ghost use Rattle.std.specs.Option.{option_copied};
ghost use Rattle.pl_lemmas.specs.Words.{numbered};
ghost use Rattle.pl_model.specs.Claims as claims;
ghost use Rattle.pl_model.specs.Due.{request_numbers};
ghost use Rattle.pl_model.specs.Known.{Known, asked_at};
ghost use Rattle.pl_model.specs.Legal.{last_of};
ghost use Rattle.pl_told.specs.Column.{nothing_kept, prepared, retracted, with_change};
ghost use Rattle.pl_told.specs.Paths.{HaveAllPaths};

use crate::change::Change;
use crate::index::number_of;
use crate::stored::Stored;
use pl_model::Heard;
use pl_state::Goal;
use pl_value::OutOfMemory;
use std::alloc::Global;
use std::marker::Model;

/// The goals of a run, and the requests that its host told, with their fates.
#[derive(Debug, Drop)]
pub struct Requests {
    /// What stands for good.
    stored: Stored,
    /// The newest request with its goals, as long as it may be taken back.
    newest: Option<Change>,
    /// Whether there is memory for one more request, with the goals that it makes.
    ready: bool,
}

impl Model for Requests {
    ghost use Rattle.std.specs.Coded.{codes};
    ghost use Rattle.pl_state.specs.contracts.goal.Goal as goal_row;
    ghost use Rattle.pl_model.specs.contracts.heard.Heard as heard_row;
    ghost use Rattle.pl_told.specs.Column as column;
    ghost use Rattle.pl_told.specs.Kept.{kept_by, IsKept};

    ghost Value = { column.Kept };

    ghost coded = { Prim.hlevel (codes, goal_row.the_row.coded, heard_row.the_row.coded) };

    ghost view = { kept_by };

    ghost invariant = { IsKept };
}

impl Requests {
    /// No goal and no request yet; takes no memory.
    pub fn new(alloc: Global) -> Requests
        ensures { result ≡ nothing_kept }
    {
        Requests {
            stored: Stored::new(alloc),
            newest: None,
            ready: false,
        }
    }

    /// The number of goals.
    pub fn len(&self) -> u64
        ensures count { result ≡ length self.now.goals }
        ensures few { result < 2 ^ 63 }
    {
        match &self.newest {
            None => self.stored.len(),
            Some(change) => self.stored.len() + change.count(),
        }
    }

    /// The number of the newest goal with a URN.
    pub fn goal_number(&self, urn: &str) -> Option<u64>
        ensures { result ≡ claims.goal_number self.now.goals urn.now }
    {
        let Some(change) = &self.newest else {
            return self.stored.goal_number(urn);
        };
        match change.goal_number(self.stored.len(), urn) {
            None => self.stored.goal_number(urn),
            Some(number) => Some(number),
        }
    }

    /// Whether a goal has a URN.
    pub fn has_goal(&self, urn: &str) -> bool
        ensures { result ≡ is_some (claims.goal_number self.now.goals urn.now) }
    {
        self.goal_number(urn).is_some()
    }

    /// The goal of a number.
    pub fn goal(&self, number: u64) -> Option<&Goal>
        ensures { option_copied result ≡ numbered self.now.goals number }
    {
        let Some(change) = &self.newest else {
            return self.stored.goal(number);
        };
        match change.goal(self.stored.len(), number) {
            None => self.stored.goal(number),
            Some(goal) => Some(goal),
        }
    }

    /// The newest goal with a URN.
    pub fn goal_with_urn(&self, urn: &str) -> Option<&Goal>
        ensures { option_copied result ≡ option_and_then (numbered self.now.goals) (claims.goal_number self.now.goals urn.now) }
    {
        match self.goal_number(urn) {
            None => None,
            Some(number) => self.goal(number),
        }
    }

    /// The newest told request of a number.
    pub fn asked(&self, n: u64) -> Option<&Heard>
        ensures { (known : Known) → known.asked ≡ self.now.asked → option_copied result ≡ asked_at known n }
    {
        match &self.newest {
            Some(change) if change.number() == n => Some(change.heard()),
            _ => self.stored.asked(n),
        }
    }

    /// The number of told requests.
    pub fn told_count(&self) -> u64
        ensures count { result ≡ length self.now.asked }
        ensures few { result < 2 ^ 63 }
    {
        match &self.newest {
            None => self.stored.told_count(),
            Some(_) => self.stored.told_count() + 1,
        }
    }

    /// The told request before which so many were told.
    fn heard(&self, place: u64) -> Option<&Heard>
        ensures { option_copied result ≡ numbered self.now.asked place }
    {
        match &self.newest {
            Some(change) if self.stored.told_count() == place => Some(change.heard()),
            _ => self.stored.told(place),
        }
    }

    /// The number of the told request before which so many were told.
    pub fn told(&self, place: u64) -> Option<u64>
        ensures { (known : Known) → known.asked ≡ self.now.asked → result ≡ slice_get (request_numbers known) place }
    {
        match self.heard(place) {
            None => None,
            Some(heard) => Some(number_of(&heard.request)),
        }
    }

    /// The number of the newest request, 0 where none was told.
    pub fn last_number(&self) -> u64
        ensures { result ≡ last_of self.now.asked }
    {
        match &self.newest {
            None => self.stored.last_number(),
            Some(change) => change.number(),
        }
    }

    /// The paths of the goals can be read. Nothing is done.
    pub fn have_paths(&self)
        ensures { HaveAllPaths self.now.goals }
    {
        self.stored.have_paths();
        match &self.newest {
            None => {}
            Some(change) => change.have_paths(),
        }
    }
}

impl Requests {
    /// Takes the memory that one more request wants, with the goals that it makes. What was told before is not to be
    /// taken back any more.
    pub fn prepare(&mut self) -> Result<(), OutOfMemory>
        ensures ready { OnOk result (self.new ≡ prepared self.old) }
        ensures unchanged { OnErr result (self.new ≡ self.old) }
    {
        self.stored.reserve()?;
        match self.newest.take() {
            None => {}
            Some(change) => self.stored.add(change),
        }
        self.ready = true;
        Ok(())
    }

    /// Adds what a told request comes to; takes no memory.
    pub fn commit(&mut self, change: Change)
        requires { self.old.ready ≡ true }
        ensures { self.new ≡ with_change change self.old }
    {
        self.newest = Some(change);
        self.ready = false;
    }

    /// Takes the newest request back, with the goals that it made, and leaves the memory for one; takes none.
    pub fn retract(&mut self)
        requires { is_some self.old.newest ≡ true }
        ensures { self.new ≡ retracted self.old }
    {
        self.newest = None;
        self.ready = true;
    }
}
