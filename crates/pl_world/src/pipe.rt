ghost use Rattle.std.specs.Prelude.{◌≡◌, ℕ, ◌<◌, ◌≤◌, List, [], ◌∷◌, Option, length, take, IfOk, OnErr, IfSome};
ghost use Rattle.pl_world.specs.Counts.{Rose};
ghost use Rattle.pl_world.specs.Told.{Grew, Shrank, GavePart, cover_text};
ghost use Rattle.pl_world.specs.Causes.{OnFailed, OnNoMemory};

use crate::store::Covering;
use crate::trouble::{Failed, Trouble};
use std::alloc::Global;

/// A pipe to and from a child, or one half of one.
pub trait Pipe: Drop + Send {
    type Cover: Covering;

    // how many faults there were
    ghost faults: { Self → ℕ };

    // how many times the end of the input was met
    ghost ends: { Self → ℕ };

    // the pieces that were given, each with the text of its cover, where they are told
    ghost given: { Self → Option (List (List ℕ × Option (List ℕ))) };

    // the bytes that were taken, where they are told
    ghost taken: { Self → Option (List ℕ) };

    // the bytes that are left to be taken, where they are told
    ghost left: { Self → Option (List ℕ) };

    /// Gives the first bytes of a piece, and says how many. A pipe that can take none of a nonempty
    /// piece answers a failure.
    fn give(
        &mut self,
        alloc: Global,
        cover: Option<&Self::Cover>,
        bytes: &[u8],
    ) -> Result<u64, Trouble>
        ensures within { IfOk result (λ count. count ≤ length bytes.now) }
        ensures some_went { IfOk result (λ count. 0 < length bytes.now → 0 < count) }
        ensures given_grew { let text = cover_text Self.Cover.text cover.entry in
            IfOk result (λ count. Grew (given self.old) (given self.new) ((take count bytes.now, text) ∷ [])) }
        ensures failed_rose { OnFailed result (Rose (faults self.old) (faults self.new)) }

        // Some first bytes may have gone out.
        ensures failed_gave_part { let text = cover_text Self.Cover.text cover.entry in
            OnFailed result (GavePart (given self.old) (given self.new) bytes.now text) }
        ensures no_memory_gave_nothing { OnNoMemory result (given self.new ≡ given self.old) }
        ensures taken_stays { taken self.new ≡ taken self.old }
        ensures faults_never_fall { faults self.old ≤ faults self.new }
        ensures ends_never_fall { ends self.old ≤ ends self.new };

    /// Puts bytes that came at the front of the buffer, and says how many. None on a nonempty buffer is
    /// the end of the input.
    fn take(&mut self, into: &mut [u8]) -> Result<u64, Failed>
        ensures within { IfOk result (λ count. count ≤ length into.old) }
        ensures taken_grew { IfOk result (λ count. Grew (taken self.old) (taken self.new) (take count into.new)) }
        ensures left_shrank { IfOk result (λ count. Shrank (left self.old) (left self.new) (take count into.new)) }
        ensures end_rose { IfOk result (λ count. count ≡ 0 → 0 < length into.old → Rose (ends self.old) (ends self.new)) }
        ensures end_left_nothing { IfOk result (λ count. count ≡ 0 → 0 < length into.old → IfSome (left self.new) (λ rest. rest ≡ [])) }
        ensures failed_rose { OnErr result (Rose (faults self.old) (faults self.new)) }
        ensures failed_took_nothing { OnErr result (taken self.new ≡ taken self.old) }
        ensures failed_left_all { OnErr result (left self.new ≡ left self.old) }
        ensures given_stays { given self.new ≡ given self.old }
        ensures faults_never_fall { faults self.old ≤ faults self.new }
        ensures ends_never_fall { ends self.old ≤ ends self.new };
}
