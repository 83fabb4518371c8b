ghost use Rattle.std.specs.Prelude.{◌≡◌, [], IfErr, IfOk, length, option_and_then, slice_get};
ghost use Rattle.std.specs.Option.{option_copied, option_map_or};
ghost use Rattle.pl_model.specs.Run.{rows_of};
ghost use Rattle.pl_sound.specs.Sound.{IsSound};
ghost use Rattle.pl_state.specs.Chain.{deleter_row_of, last_provider, provider_row_of};
ghost use Rattle.pl_base.specs.Dependents.{dependents_of};
ghost use Rattle.pl_base.specs.Keeper.{keeper_in as keeper_among};

use crate::indexes::{Indexes, indexes_of};
use crate::keepers::keeper_in;
use pl_model::Fixed;
use pl_state::Entry;
use pl_value::{OutOfMemory, Rows};
use std::alloc::Global;
use std::marker::Model;

/// What a run is over, with what is looked up in its state at the start.
#[derive(Debug, Drop)]
pub struct Base {
    run: Fixed,
    indexes: Indexes,
}

impl Model for Base {
    ghost use Rattle.pl_model.specs.contracts.fixed.Fixed as fixed;
    ghost use Rattle.pl_model.specs.declared.fixed.Fixed.{Fixed};

    ghost Value = { Fixed };

    ghost coded = { fixed.the_row.coded };

    ghost use Rattle.pl_base.specs.Based.{IsBased};

    ghost view = { λ a. a.run };

    ghost invariant = { IsBased };
}

impl Base {
    /// Makes the indexes, in a time that grows with the number of rows and references, times its logarithm. After
    /// `OutOfMemory` the data are given back.
    pub fn new(alloc: Global, run: Fixed) -> Result<Base, (Fixed, OutOfMemory)>
        requires { IsSound (rows_of run) }
        ensures made { IfOk result (λ base. base ≡ run) }
        ensures given_back { IfErr result (λ fault. fault.0 ≡ run) }
    {
        match indexes_of(alloc, &run.base) {
            Ok(indexes) => Ok(Base { run, indexes }),
            Err(fault) => Err((run, fault)),
        }
    }

    /// Gives the data back.
    pub fn into_run(self) -> Fixed
        ensures { result ≡ self }
    {
        let Base { run, .. } = self;
        run
    }

    /// What the run is over.
    pub fn run(&self) -> &Fixed
        ensures { result.now ≡ self.now }
    {
        &self.run
    }

    /// The state at the start is sound. Nothing is done.
    pub fn is_sound(&self)
        ensures { IsSound (rows_of self.now) }
    {
        let _ = &self.run;
    }

    /// The number of rows.
    pub fn len(&self) -> u64
        ensures { result ≡ length (rows_of self.now) }
    {
        self.run.base.entries.len() as u64
    }

    /// A row of the state at the start.
    pub fn row(&self, row: u64) -> Option<&Entry>
        ensures { option_copied result ≡ slice_get (rows_of self.now) row }
    {
        self.run.base.entries.get(row as usize)
    }

    /// The first row that has a URN and is not to be deleted.
    pub fn keeper(&self, urn: &str) -> Option<u64>
        ensures { result ≡ keeper_among (rows_of self.now) urn.now }
    {
        keeper_in(&self.indexes.keepers, urn)
    }
}

impl Base {
    /// The row of a row's provider: the last row before it that its reference names.
    pub fn provider_row(&self, row: u64) -> Option<u64>
        ensures { result ≡ provider_row_of (rows_of self.now) row }
    {
        told_at(self.indexes.providers.rows.as_slice(), row)
    }

    /// The row whose deletion takes a row along: the last row before it with the URN that it names.
    pub fn deleter_row(&self, row: u64) -> Option<u64>
        ensures { result ≡ deleter_row_of (rows_of self.now) row }
    {
        told_at(self.indexes.deleters.as_slice(), row)
    }

    /// The row of the provider of the pending operation at a place: the last row that its reference names.
    pub fn provider_of_pending(&self, at: u64) -> Option<u64>
        ensures { result ≡ option_and_then (λ pending. last_provider pending.entry.provider (rows_of self.now))
            (slice_get self.now.base.pending at) }
    {
        told_at(self.indexes.providers.pending.as_slice(), at)
    }

    /// The rows after a row that refer to it, rising.
    pub fn dependents(&self, row: u64) -> &[u64]
        ensures { result.now ≡ dependents_of (rows_of self.now) row }
    {
        listed_at(self.indexes.dependents.as_slice(), row)
    }
}

/// What is told of a place.
fn told_at(told: &[Option<u64>], place: u64) -> Option<u64>
    ensures { result ≡ option_and_then (λ one. one) (slice_get told.now place) }
{
    match told.get(place as usize) {
        None => None,
        Some(one) => *one,
    }
}

/// The rows that are listed at a place.
fn listed_at(lists: &[Rows], place: u64) -> &[u64]
    ensures { result.now ≡ option_map_or (λ list. list) (slice_get lists.now place) [] }
{
    match lists.get(place as usize) {
        None => &[],
        Some(list) => list.as_slice(),
    }
}
