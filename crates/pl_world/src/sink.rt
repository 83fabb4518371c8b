ghost use Rattle.std.specs.Prelude.{◌≡◌, ℕ, ◌<◌, ◌≤◌, List, Option, length, take, IfOk};
ghost use Rattle.pl_world.specs.Counts.{Rose};
ghost use Rattle.pl_world.specs.Told.{Grew, GrewByPart};
ghost use Rattle.pl_world.specs.Causes.{OnFailed, OnNoMemory};

use crate::trouble::Trouble;
use std::alloc::Global;

/// Where the lines of a run go.
pub trait Sink: Drop + Send {
    // how many faults there were
    ghost faults: { Self → ℕ };

    // the bytes that were written, where they are told
    ghost written: { Self → Option (List ℕ) };

    /// Writes the first bytes, and says how many. A sink that can write none of some bytes answers a
    /// failure.
    fn write(&mut self, alloc: Global, bytes: &[u8]) -> Result<u64, Trouble>
        ensures within { IfOk result (λ count. count ≤ length bytes.now) }
        ensures some_went { IfOk result (λ count. 0 < length bytes.now → 0 < count) }
        ensures written_grew { IfOk result (λ count. Grew (written self.old) (written self.new) (take count bytes.now)) }
        ensures failed_rose { OnFailed result (Rose (faults self.old) (faults self.new)) }

        // Some first bytes may have gone out.
        ensures failed_wrote_part { OnFailed result (GrewByPart (written self.old) (written self.new) bytes.now) }
        ensures no_memory_wrote_nothing { OnNoMemory result (written self.new ≡ written self.old) }
        ensures faults_never_fall { faults self.old ≤ faults self.new };
}
