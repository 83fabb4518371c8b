//! Everything is deleted, one thing of it retained: everything that is said of a run holds of this one.

ghost use Rattle.std.specs.Prelude.{◌≡◌, [], ◌∷◌, false, None, reverse, Some, true};
ghost use Rattle.pl_model.specs.Due.{IsQuiet};
ghost use Rattle.pl_model.specs.Known.{is_over};
ghost use Rattle.pl_model.specs.Legal.{IsLegal};
ghost use Rattle.pl_model.specs.RunData.{IsRun, IsSpelling};
ghost use Rattle.pl_model.specs.Saves.{IsSaved, IsStory};
ghost use Rattle.pl_model_legal.specs.Small.{spelling_of};
ghost use Rattle.pl_model_legal.specs.Whole.{AreCovered, HostTells, LaneTells, piece};
ghost use Rattle.pl_model_rows.specs.Destroyed.{events, run};
ghost use Rattle.pl_model_rows.specs.Prefixes.{known_end};

/// Its data are those of a run, and its history is one that such a run may have.
pub fn legal()
    ensures run { IsRun run }
    ensures spelling { IsSpelling (spelling_of (reverse events)) }
    ensures legal { IsLegal run (spelling_of (reverse events)) (reverse events) }
{}

/// At its end nothing is left to do.
pub fn done()
    ensures over { is_over (known_end run events) ≡ true }
    ensures quiet { IsQuiet (known_end run events) }
{}

/// Its marks and the texts of its states (how many entries, how many pending operations), with no fault and no want
/// of memory, and what stands in the checkpoint before the deletion is sent.
pub fn saved()
    ensures marks { IsSaved run ⊥ false (reverse events) (1 ∷ 4 ∷ 5 ∷ 6 ∷ 7 ∷ []) }
    ensures story { IsStory run (spelling_of (reverse events)) ⊥ (reverse events) (1 ∷ 4 ∷ 5 ∷ 6 ∷ 7 ∷ [])
        ((3 ∷ 0 ∷ []) ∷ (3 ∷ 1 ∷ []) ∷ (2 ∷ 0 ∷ []) ∷ (1 ∷ 0 ∷ []) ∷ (0 ∷ 0 ∷ []) ∷ []) }
    ensures covered { AreCovered run (reverse events) }
{}

/// The bodies that the provider's child gave and was given, and that a run without a host has none of a host.
pub fn lines()
    ensures lane { LaneTells run (reverse events) 0 ((0 ∷ []) ∷ (1 ∷ []) ∷ [])
        (piece (0 ∷ 1 ∷ []) None ∷ piece (1 ∷ 6 ∷ []) (Some (3 ∷ 1 ∷ [])) ∷ []) }
    ensures host { HostTells run (reverse events) [] [] }
{}
