ghost use Rattle.std.specs.Prelude.{◌≡◌, ℕ, ◌≤◌, Option, is_none, IfOk, IfSome, OnOk};
ghost use Rattle.pl_world.specs.Counts.{Rose};
ghost use Rattle.pl_world.specs.Causes.{OnFailed, OnNoMemory};
ghost use Rattle.pl_toy.specs.Things.{Became, IsKeptOrBecame, Things, with_new, with_thing, without_thing};

use pl_value::Bytes;
use pl_world::Trouble;
use std::alloc::Global;

/// A place that keeps things by their ids, each as some bytes.
pub trait Shelf: Drop {
    // how many faults there were
    ghost faults: { Self → ℕ };

    // the things that are there, where they are told
    ghost things: { Self → Option Things };

    /// The bytes of the thing, or none where it isn't there.
    fn get(&mut self, alloc: Global, id: &str) -> Result<Option<Bytes>, Trouble>
        ensures thing { IfOk result (λ thing. IfSome (things self.old) (λ held. thing ≡ held id.now)) }
        ensures things_stay { things self.new ≡ things self.old }
        ensures failed_rose { OnFailed result (Rose (faults self.old) (faults self.new)) }
        ensures faults_never_fall { faults self.old ≤ faults self.new };

    /// Adds a thing, and says whether it did: it doesn't where one of this id is there.
    fn put_new(&mut self, alloc: Global, id: &str, bytes: &[u8]) -> Result<bool, Trouble>
        ensures is_new { IfOk result (λ is_new. IfSome (things self.old) (λ held. is_new ≡ is_none (held id.now))) }
        ensures added { OnOk result (Became (with_new id.now bytes.now) (things self.old) (things self.new)) }
        ensures failed_rose { OnFailed result (Rose (faults self.old) (faults self.new)) }

        // The thing may have been added all the same.
        ensures failed_kept_or_added { OnFailed result (IsKeptOrBecame (with_new id.now bytes.now) (things self.old) (things self.new)) }
        ensures no_memory_kept { OnNoMemory result (things self.new ≡ things self.old) }
        ensures faults_never_fall { faults self.old ≤ faults self.new };

    /// Puts a thing there, in the place of one of this id if that is there.
    fn put(&mut self, alloc: Global, id: &str, bytes: &[u8]) -> Result<(), Trouble>
        ensures put { OnOk result (Became (with_thing id.now bytes.now) (things self.old) (things self.new)) }
        ensures failed_rose { OnFailed result (Rose (faults self.old) (faults self.new)) }

        // The thing may have been put there all the same.
        ensures failed_kept_or_put { OnFailed result (IsKeptOrBecame (with_thing id.now bytes.now) (things self.old) (things self.new)) }
        ensures no_memory_kept { OnNoMemory result (things self.new ≡ things self.old) }
        ensures faults_never_fall { faults self.old ≤ faults self.new };

    /// Takes a thing away, if one of this id is there.
    fn remove(&mut self, alloc: Global, id: &str) -> Result<(), Trouble>
        ensures removed { OnOk result (Became (without_thing id.now) (things self.old) (things self.new)) }
        ensures failed_rose { OnFailed result (Rose (faults self.old) (faults self.new)) }

        // The thing may have gone all the same.
        ensures failed_kept_or_removed { OnFailed result (IsKeptOrBecame (without_thing id.now) (things self.old) (things self.new)) }
        ensures no_memory_kept { OnNoMemory result (things self.new ≡ things self.old) }
        ensures faults_never_fall { faults self.old ≤ faults self.new };
}
