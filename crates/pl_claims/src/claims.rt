ghost use Rattle.std.specs.Prelude.{◌≡◌, ◌∷◌, ◌+◌, ◌-◌, ◌<◌, ◌&&◌, drop, false, IfErr, IfOk, IfSome, length, OnErr, OnOk, option_map, slice_get};
ghost use Rattle.std.specs.Bool.{beq};
ghost use Rattle.std.specs.Option.{option_copied};
ghost use Rattle.pl_claims.specs.Columns.{is_left_over, known_by, nothing_decided};
ghost use Rattle.pl_claims.specs.Marks.{first_chained};
ghost use Rattle.pl_lemmas.specs.Words.{first_some, numbered};
ghost use Rattle.pl_model.specs.Claims as spec;
ghost use Rattle.pl_model.specs.Problems.{keeper_of};
ghost use Rattle.pl_model.specs.Rows as rows;
ghost use Rattle.pl_model.specs.Run.{rows_of};
ghost use Rattle.pl_state.specs.Kinds.{is_of_provider as is_provider_urn};

use crate::mark::{Mark, free_chain, free_claim, mark_chain, mark_claim, no_marks};
use crate::settled::{Settled, settled_at};
use pl_base::Base;
use pl_decide::{is_delete_first, is_of_provider};
use pl_model::{Decided, Fixed};
use pl_state::{Entry, Goal};
use pl_urn::Urn;
use pl_value::{OutOfMemory, Rows};
use std::alloc::Global;
use std::marker::Model;

/// What is decided of the goals of a run, one after another, with the rows that they claim and take along.
#[derive(Debug, Drop)]
pub struct Claims {
    base: Base,
    /// By the number of the goal.
    settled: Vec<Settled>,
    /// By row.
    marks: Vec<Mark>,
    /// For how many decisions more there is memory.
    ready: u64,
}

impl Model for Claims {
    ghost use Rattle.std.specs.Coded.{codes};
    ghost use Rattle.pl_claims.specs.Columns.{Kept};
    ghost use Rattle.pl_model.specs.contracts.decided.Decided as decided;
    ghost use Rattle.pl_model.specs.contracts.fixed.Fixed as fixed;

    ghost Value = { Kept };

    ghost coded = { Prim.hlevel (codes, decided.the_row.coded, fixed.the_row.coded) };

    ghost use Rattle.pl_claims.specs.Kept.{kept_by, IsKept};

    ghost view = { kept_by };

    ghost invariant = { IsKept };
}

impl Claims {
    /// Nothing is decided; after `OutOfMemory` what the run is over is given back.
    pub fn new(alloc: Global, base: Base) -> Result<Claims, (Base, OutOfMemory)>
        ensures nothing { IfOk result (λ claims. claims ≡ nothing_decided base) }
        ensures given_back { IfErr result (λ fault. fault.0 ≡ base) }
    {
        base.is_sound();
        match no_marks(alloc, base.len() as usize) {
            Ok(marks) => Ok(Claims {
                base,
                settled: Vec::new(alloc),
                marks,
                ready: 0,
            }),
            Err(fault) => Err((base, fault)),
        }
    }

    /// Gives back what the run is over, with what is looked up in it; what is decided is let go.
    pub fn into_base(self) -> Base
        ensures { result ≡ self.run }
    {
        let Claims { base, .. } = self;
        base
    }

    /// Takes the memory that so many decisions more want.
    pub fn prepare(&mut self, count: u64) -> Result<(), OutOfMemory>
        ensures ready { OnOk result (self.new ≡ record self.old { ready = count }) }
        ensures unchanged { OnErr result (self.new ≡ self.old) }
    {
        self.settled.reserve(count as usize)?;
        self.ready = count;
        Ok(())
    }

    /// One decision more, of the next goal, with the chain of its claim where that is deleted first; takes no memory.
    pub fn decide_prepared(&mut self, decided: Decided, chain: Rows)
        requires ready { 0 < self.old.ready }
        requires claim { IfSome decided.claim (λ row. row < length (rows_of self.old.run)) }
        requires unclaimed { IfSome decided.claim (λ row. spec.is_claimed self.old.decided row ≡ false) }
        requires chain { chain ≡ spec.chain_of_goal self.old.run decided }
        ensures { self.new ≡ record self.old { decided = decided ∷ self.old.decided; ready = self.old.ready - 1 } }
    {
        let goal = self.settled.len() as u64;
        let first = is_delete_first(&decided.decision);
        mark_claim(self.marks.as_mut_slice(), decided.claim, goal, first);
        mark_chain(self.marks.as_mut_slice(), chain.as_slice(), goal);
        self.settled.push(Settled { decided, chain }).unwrap();
        self.ready -= 1;
    }

    /// Takes the newest decision back, which leaves memory for one more; takes none.
    pub fn retract(&mut self)
        requires { 0 < length self.old.decided }
        ensures { self.new ≡ record self.old { decided = drop 1 self.old.decided; ready = self.old.ready + 1 } }
    {
        let (claim, chain) = self.settled.pop().unwrap().into_claim();
        let goal = self.settled.len() as u64;
        free_chain(self.marks.as_mut_slice(), chain.as_slice(), goal);
        free_claim(self.marks.as_mut_slice(), claim);
        self.ready += 1;
    }
}

impl Claims {
    /// What the run is over.
    pub fn run(&self) -> &Fixed
        ensures { result.now ≡ self.now.run }
    {
        self.base.run()
    }

    /// What the run is over, with what is looked up in it.
    pub fn base(&self) -> &Base
        ensures { result.now ≡ self.now.run }
    {
        &self.base
    }

    /// Of how many goals something is decided.
    pub fn count(&self) -> u64
        ensures { result ≡ length self.now.decided }
    {
        self.settled.len() as u64
    }

    /// What is decided of a goal.
    pub fn decided(&self, goal: u64) -> Option<&Decided>
        ensures { option_copied result ≡ numbered self.now.decided goal }
    {
        match settled_at(self.settled.as_slice(), goal) {
            None => None,
            Some(one) => Some(&one.decided),
        }
    }

    /// The rows that go along with the claim of a goal, where that is deleted first.
    pub fn chain(&self, goal: u64) -> Option<&Rows>
        ensures { option_copied result ≡ option_map (spec.chain_of_goal self.now.run) (numbered self.now.decided goal) }
    {
        match settled_at(self.settled.as_slice(), goal) {
            None => None,
            Some(one) => Some(&one.chain),
        }
    }

    /// The goal that claims a row.
    pub fn claimer(&self, row: u64) -> Option<u64>
        ensures { result ≡ spec.claimer_of self.now.decided row }
    {
        let mark = self.marks.get(row as usize)?;
        mark.claimer
    }

    /// Whether a goal claims the row.
    pub fn is_claimed(&self, row: u64) -> bool
        ensures { result ≡ spec.is_claimed self.now.decided row }
    {
        self.claimer(row).is_some()
    }

    /// The first goal that has the row in its chain.
    fn chainer(&self, row: u64) -> Option<u64>
        ensures { result ≡ first_chained self.now.run self.now.decided row }
    {
        let mark = self.marks.get(row as usize)?;
        mark.chained
    }

    /// Whether the row is in the chain of a goal.
    pub fn is_chained(&self, row: u64) -> bool
        ensures { result ≡ spec.is_chained self.now.run self.now.decided row }
    {
        self.chainer(row).is_some()
    }

    /// Whether the row is the claim of a goal that is deleted first.
    pub fn is_deleted_first(&self, row: u64) -> bool
        ensures { result ≡ rows.is_deleted_first (known_by self.now) row }
    {
        match self.marks.get(row as usize) {
            None => false,
            Some(mark) => mark.deleted_first,
        }
    }

    /// Whether a goal may still claim the row, its URN and its kind aside.
    pub fn is_left_over(&self, row: u64) -> bool
        ensures { result ≡ is_left_over self.now.run self.now.decided row }
    {
        !self.is_claimed(row) && !self.is_chained(row)
    }
}

impl Claims {
    /// A row of the state at the start.
    pub fn row(&self, row: u64) -> Option<&Entry>
        ensures { option_copied result ≡ rows.row_at (known_by self.now) row }
    {
        self.base.row(row)
    }

    /// The row that keeps a URN: it has it, and is not to be deleted.
    pub fn keeper(&self, urn: &Urn) -> Option<u64>
        ensures { result ≡ keeper_of (known_by self.now) urn.now }
    {
        self.base.keeper(urn.as_str())
    }

    /// The row that the next goal claims: by its URN, or else by its aliases in order.
    pub fn claim_for(&self, goal: &Goal) -> Option<u64>
        ensures { result ≡ spec.claim_for self.now.run self.now.decided goal.now }
    {
        match self.claim_by(goal, &goal.urn) {
            Some(row) => Some(row),
            None => self.claim_by_any(goal, goal.aliases.as_slice()),
        }
    }

    fn claim_by_any(&self, goal: &Goal, urns: &[Urn]) -> Option<u64>
        ensures { result ≡ first_some (spec.claim_by self.now.run self.now.decided goal.now) urns.now }
    {
        for urn in urns {
            if let Some(row) = self.claim_by(goal, urn) {
                return Some(row);
            }
        }
        None
    }

    fn claim_by(&self, goal: &Goal, urn: &Urn) -> Option<u64>
        ensures { result ≡ spec.claim_by self.now.run self.now.decided goal.now urn.now }
    {
        let row = self.base.keeper(urn.as_str())?;
        if self.may_claim(goal, urn, row) {
            Some(row)
        } else {
            None
        }
    }

    /// Whether a goal may claim the row that keeps a URN.
    fn may_claim(&self, goal: &Goal, urn: &Urn, row: u64) -> bool
        ensures { result ≡ (beq (is_provider_urn goal.now.urn) (is_provider_urn urn.now)
            && is_left_over self.now.run self.now.decided row) }
    {
        is_of_provider(&goal.urn) == is_of_provider(urn) && self.is_left_over(row)
    }
}
