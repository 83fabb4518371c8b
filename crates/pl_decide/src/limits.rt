ghost use Rattle.std.specs.Prelude.{◌≡◌, [], ◌∷◌, ◌++◌, IfOk, length, OnErr, OnOk, slice_get};
ghost use Rattle.std.specs.Option.{option_copied};

use pl_state::Urns;
use pl_urn::Urn;
use pl_value::{OutOfMemory, Text};
use std::alloc::Global;
use std::marker::Model;

/// What a run may do beside what its goals ask for: with both left out, everything.
#[derive(Debug, Drop)]
pub struct Limits {
    /// The only resources that may be changed.
    pub only: Option<Urns>,
    /// The only steps that may be taken.
    pub plan: Option<PlanLines>,
}

impl Limits {
    pub fn copy(&self) -> Result<Limits, OutOfMemory>
        ensures { IfOk result (λ made. made ≡ self.now) }
    {
        Ok(Limits {
            only: copy_urns(&self.only)?,
            plan: copy_plan(&self.plan)?,
        })
    }
}

/// The steps of a plan, in order, each with the URN of its resource and its name, seen as pairs.
#[derive(Debug, Drop)]
pub struct PlanLines {
    pairs: Vec<(Urn, Text)>,
}

impl Model for PlanLines {
    ghost use Rattle.std.specs.Prelude.{List, ℕ};

    ghost Value = { List (List ℕ × List ℕ) };

    ghost view = { λ a. a.pairs.items };
}

impl PlanLines {
    /// Nothing in the list; takes no memory.
    pub fn new(alloc: Global) -> PlanLines
        ensures { result ≡ [] }
    {
        PlanLines {
            pairs: Vec::new(alloc),
        }
    }

    /// Over the given vector; takes no memory.
    pub fn from_vec(pairs: Vec<(Urn, Text)>) -> PlanLines
        ensures { result ≡ pairs.items }
    {
        PlanLines { pairs }
    }

    /// Gives the vector back; takes no memory.
    pub fn into_vec(self) -> Vec<(Urn, Text)>
        ensures { result.items ≡ self }
    {
        let PlanLines { pairs } = self;
        pairs
    }

    pub fn as_slice(&self) -> &[(Urn, Text)]
        ensures { result.now ≡ self.now }
    {
        self.pairs.as_slice()
    }

    pub fn len(&self) -> usize
        ensures { result ≡ length self.now }
    {
        self.pairs.len()
    }

    /// The pair at this place, from 0.
    pub fn get(&self, place: usize) -> Option<&(Urn, Text)>
        ensures { option_copied result ≡ slice_get self.now place }
    {
        self.pairs.get(place)
    }

    /// Adds a pair at the end; after `OutOfMemory` nothing was added.
    pub fn push(&mut self, pair: (Urn, Text)) -> Result<(), OutOfMemory>
        ensures added { OnOk result (self.new ≡ self.old ++ pair ∷ []) }
        ensures unchanged { OnErr result (self.new ≡ self.old) }
    {
        self.pairs.push(pair)?;
        Ok(())
    }

    pub fn copy(&self) -> Result<PlanLines, OutOfMemory>
        ensures { IfOk result (λ made. made ≡ self.now) }
    {
        let mut pairs = Vec::new(*self.pairs.allocator());
        for pair in &self.pairs {
            pairs.push((pair.0.copy()?, pair.1.copy()?))?;
        }
        Ok(PlanLines { pairs })
    }
}

fn copy_urns(urns: &Option<Urns>) -> Result<Option<Urns>, OutOfMemory>
    ensures { IfOk result (λ made. made ≡ urns.now) }
{
    match urns {
        None => Ok(None),
        Some(urns) => {
            let copied = urns.copy()?;
            Ok(Some(copied))
        }
    }
}

fn copy_plan(plan: &Option<PlanLines>) -> Result<Option<PlanLines>, OutOfMemory>
    ensures { IfOk result (λ made. made ≡ plan.now) }
{
    match plan {
        None => Ok(None),
        Some(plan) => {
            let copied = plan.copy()?;
            Ok(Some(copied))
        }
    }
}
