ghost use Rattle.std.specs.Prelude.{◌≡◌, ℕ, ◌≤◌, ◌⊎◌, List, [], ◌∷◌, Option, option_map, IfOk, OnOk};
ghost use Rattle.pl_world.specs.Counts.{Rose};
ghost use Rattle.pl_world.specs.Told.{Grew, IsPresentContent, IsKeptOrAdded};
ghost use Rattle.pl_world.specs.Causes.{OnFailed, OnNoMemory};

use crate::trouble::Trouble;
use pl_value::Bytes;
use std::alloc::Global;

/// What a store hands out for a replacement that succeeded: the evidence that the bytes are its
/// content. It has no call, and no code that is generic over it can make one.
pub trait Covering: Drop + Send {
    // the bytes that are covered, where they are told
    ghost text: { Self → Option (List ℕ) };
}

/// A place that holds one content of bytes, or none yet.
pub trait Store: Drop + Send {
    type Cover: Covering;

    // how many faults there were
    ghost faults: { Self → ℕ };

    // the contents so far, the present one last, where they are told
    ghost story: { Self → Option (List (List ℕ)) };

    /// The present content, or none where there never was one.
    fn read(&mut self, alloc: Global) -> Result<Option<Bytes>, Trouble>
        ensures content { IfOk result (λ content. IsPresentContent (story self.old) content) }
        ensures story_stays { story self.new ≡ story self.old }
        ensures failed_rose { OnFailed result (Rose (faults self.old) (faults self.new)) }
        ensures faults_never_fall { faults self.old ≤ faults self.new };

    /// Puts the bytes in place of the content, whole or not at all.
    fn replace(&mut self, alloc: Global, bytes: &[u8]) -> Result<Self::Cover, Trouble>
        ensures added { OnOk result (Grew (story self.old) (story self.new) (bytes.now ∷ [])) }

        // The cover tells its bytes where the store tells its story.
        ensures covered { IfOk result (λ cover. Self.Cover.text cover ≡ option_map (λ _. bytes.now) (story self.new)) }
        ensures failed_rose { OnFailed result (Rose (faults self.old) (faults self.new)) }

        // The bytes may have arrived all the same.
        ensures failed_kept_or_added { OnFailed result (IsKeptOrAdded (story self.old) (story self.new) bytes.now) }
        ensures no_memory_kept { OnNoMemory result (story self.new ≡ story self.old) }
        ensures faults_never_fall { faults self.old ≤ faults self.new };
}
