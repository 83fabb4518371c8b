ghost use Rattle.std.specs.Prelude.{◌≡◌, ◌++◌, ◌<◌, ◌^◌, IfOk, length, List, string_bytes};
ghost use Rattle.std.specs.Option.{option_copied, option_or};
ghost use Rattle.pl_lemmas.specs.Words.{numbered, option_list};
ghost use Rattle.pl_model.specs.Claims.{goal_number};
ghost use Rattle.pl_model.specs.Known as known;
ghost use Rattle.pl_options.specs.Refused.{HasPaths};
ghost use Rattle.pl_state.specs.declared.goal.Goal as row;
ghost use Rattle.pl_told.specs.Column.{made_by};
ghost use Rattle.pl_told.specs.Paths.{HaveAllPaths};

use crate::index::number_of;
use pl_model::Heard;
use pl_state::Goal;
use pl_value::OutOfMemory;
use std::alloc::Global;
use std::marker::Model;

/// A goal whose paths can be read, with the text by which it is to be found; it is seen as the goal.
#[derive(Debug, Drop)]
pub struct Made {
    key: String,
    goal: Goal,
}

impl Model for Made {
    ghost use Rattle.std.specs.Coded.{codes};
    ghost use Rattle.pl_state.specs.declared.goal.Goal.{Goal};
    ghost use Rattle.pl_state.specs.contracts.goal.Goal as row;
    ghost use Rattle.pl_told.specs.Made.{IsMade};

    ghost Value = { Goal };

    ghost coded = { Prim.hlevel (codes, row.the_row.coded) };

    ghost view = { λ a. a.goal };

    ghost invariant = { IsMade };
}

impl Made {
    /// A goal, to be found by its URN.
    pub fn new(alloc: Global, goal: Goal) -> Result<Made, OutOfMemory>
        requires { HasPaths goal }
        ensures { IfOk result (λ made. made ≡ goal) }
    {
        let key = String::from_str(alloc, goal.urn.as_str())?;
        Ok(Made { key, goal })
    }

    /// The text and the goal; takes no memory.
    pub(crate) fn into_parts(self) -> (String, Goal)
        ensures key { string_bytes result.0 ≡ self.urn }
        ensures goal { result.1 ≡ self }
        ensures paths { HasPaths self }
    {
        let Made { key, goal } = self;
        (key, goal)
    }

    /// The paths can be read. Nothing is done.
    fn has_paths(&self)
        ensures { HasPaths self.now }
    {
        let _ = &self.goal;
    }
}

/// The paths can be read, if there is a goal. Nothing is done.
fn has_paths_if(made: &Option<Made>)
    ensures { HaveAllPaths (option_list made.now) }
{
    match made {
        None => {}
        Some(made) => made.has_paths(),
    }
}

/// The goal behind what is to be found, if there is one.
fn goal_in(made: &Option<Made>) -> Option<&Goal>
    ensures { option_copied result ≡ made.now }
{
    match made {
        None => None,
        Some(made) => Some(&made.goal),
    }
}

/// How many goals that are, none or one.
fn count_in(made: &Option<Made>) -> u64
    ensures count { result ≡ length (option_list made.now) }
    ensures few { result < 2 }
{
    match made {
        None => 0,
        Some(_) => 1,
    }
}

/// The goal, if there is one and its number is the wanted one.
fn goal_if(made: &Option<Made>, number: u64, wanted: u64) -> Option<&Goal>
    ensures { (goals : List row.Goal) → length goals ≡ number
        → numbered (option_list made.now ++ goals) wanted ≡ option_or (option_copied result) (numbered goals wanted) }
{
    if number == wanted {
        goal_in(made)
    } else {
        None
    }
}

/// The number, if there is a goal and it has the URN.
fn number_if(made: &Option<Made>, number: u64, urn: &str) -> Option<u64>
    ensures { (goals : List row.Goal) → length goals ≡ number
        → goal_number (option_list made.now ++ goals) urn.now ≡ option_or result (goal_number goals urn.now) }
{
    match made {
        Some(made) if made.goal.urn.as_str() == urn => Some(number),
        _ => None,
    }
}

/// What a told request comes to, in memory of its own.
#[derive(Debug, Drop)]
pub struct Change {
    /// The default provider that the request needs and that does not stand yet.
    default: Option<Made>,
    /// The goal of a registration.
    own: Option<Made>,
    heard: Heard,
}

impl Model for Change {
    ghost use Rattle.std.specs.Coded.{codes};
    ghost use Rattle.pl_state.specs.contracts.goal.Goal as goal_row;
    ghost use Rattle.pl_model.specs.contracts.heard.Heard as heard_row;
    ghost use Rattle.pl_told.specs.Column as column;

    ghost Value = { column.Change };

    ghost coded = { Prim.hlevel (codes, goal_row.the_row.coded, heard_row.the_row.coded) };

    ghost view = { λ a. record { own = a.own; default = a.default; heard = a.heard } };
}

impl Change {
    /// Of the goals that a request makes, and of the request with its fate; takes no memory.
    pub fn new(default: Option<Made>, own: Option<Made>, heard: Heard) -> Change
        ensures { result ≡ record { own = own; default = default; heard = heard } }
    {
        Change {
            default,
            own,
            heard,
        }
    }

    /// The goal of an accepted registration.
    pub fn own_goal(&self) -> Option<&Goal>
        ensures { option_copied result ≡ self.now.own }
    {
        goal_in(&self.own)
    }

    /// The default provider that the request needs and that does not stand yet; its number is below that of the own goal.
    pub fn default_goal(&self) -> Option<&Goal>
        ensures { option_copied result ≡ self.now.default }
    {
        goal_in(&self.default)
    }

    /// The request with its fate.
    pub fn heard(&self) -> &Heard
        ensures { result.now ≡ self.now.heard }
    {
        &self.heard
    }

    /// The paths of the goals can be read. Nothing is done.
    pub fn have_paths(&self)
        ensures { HaveAllPaths (made_by self.now) }
    {
        has_paths_if(&self.own);
        has_paths_if(&self.default);
    }

    /// The default provider, the own goal, and the request with its fate; takes no memory.
    pub(crate) fn into_parts(self) -> (Option<Made>, Option<Made>, Heard)
        ensures default { result.0 ≡ self.default }
        ensures own { result.1 ≡ self.own }
        ensures heard { result.2 ≡ self.heard }
    {
        let Change {
            default,
            own,
            heard,
        } = self;
        (default, own, heard)
    }
}

impl Change {
    /// The number of the request.
    pub(crate) fn number(&self) -> u64
        ensures { result ≡ known.number_of self.now.heard.request }
    {
        number_of(&self.heard.request)
    }

    /// The number of goals.
    pub(crate) fn count(&self) -> u64
        ensures count { result ≡ length (made_by self.now) }
        ensures few { result < 3 }
    {
        count_in(&self.own) + count_in(&self.default)
    }

    /// The goal of a number, if it is one of these, before which there are so many.
    pub(crate) fn goal(&self, before: u64, number: u64) -> Option<&Goal>
        requires { before < 2 ^ 63 }
        ensures { (goals : List row.Goal) → length goals ≡ before
            → numbered (made_by self.now ++ goals) number ≡ option_or (option_copied result) (numbered goals number) }
    {
        match goal_if(&self.own, before + count_in(&self.default), number) {
            Some(goal) => Some(goal),
            None => goal_if(&self.default, before, number),
        }
    }

    /// The number of the newest of these goals with a URN, if one has it; before them there are so many.
    pub(crate) fn goal_number(&self, before: u64, urn: &str) -> Option<u64>
        requires { before < 2 ^ 63 }
        ensures { (goals : List row.Goal) → length goals ≡ before
            → goal_number (made_by self.now ++ goals) urn.now ≡ option_or result (goal_number goals urn.now) }
    {
        match number_if(&self.own, before + count_in(&self.default), urn) {
            Some(number) => Some(number),
            None => number_if(&self.default, before, urn),
        }
    }
}
