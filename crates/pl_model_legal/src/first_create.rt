//! A stack and one thing below it, over nothing: everything that is said of a run holds of this one.

ghost use Rattle.std.specs.Prelude.{◌≡◌, [], ◌∷◌, false, None, reverse, Some, true};
ghost use Rattle.pl_model.specs.Due.{IsQuiet};
ghost use Rattle.pl_model.specs.Fulfilment.{Fulfils};
ghost use Rattle.pl_model.specs.Known.{is_over};
ghost use Rattle.pl_model.specs.Legal.{IsLegal};
ghost use Rattle.pl_model.specs.Posts.{AllAnswered};
ghost use Rattle.pl_model.specs.RunData.{IsRun, IsSpelling};
ghost use Rattle.pl_model.specs.Saves.{IsSaved, IsStory};
ghost use Rattle.pl_model.specs.State.{state_of};
ghost use Rattle.pl_model_legal.specs.Small.{spelling_of};
ghost use Rattle.pl_model_legal.specs.Whole.{AreCovered, HostTells, LaneTells, piece};
ghost use Rattle.pl_model_rows.specs.FirstCreate.{events, run};
ghost use Rattle.pl_model_rows.specs.Prefixes.{known_end};

/// Its data are those of a run, and its history is one that such a run may have.
pub fn legal()
    ensures run { IsRun run }
    ensures spelling { IsSpelling (spelling_of (reverse events)) }
    ensures legal { IsLegal run (spelling_of (reverse events)) (reverse events) }
{}

/// At its end nothing is left to do, every request is answered, and the state has what was asked for.
pub fn done()
    ensures over { is_over (known_end run events) ≡ true }
    ensures quiet { IsQuiet (known_end run events) }
    ensures answered { AllAnswered (known_end run events) }
    ensures fulfils { Fulfils run (state_of run (reverse events)) (reverse events) }
{}

/// Its marks and the texts of its states (how many entries, how many pending operations), with no fault and no want
/// of memory, and what stands in the checkpoint before the creation is sent.
pub fn saved()
    ensures marks { IsSaved run ⊥ false (reverse events) (2 ∷ 9 ∷ 12 ∷ 13 ∷ []) }
    ensures story { IsStory run (spelling_of (reverse events)) ⊥ (reverse events) (2 ∷ 9 ∷ 12 ∷ 13 ∷ [])
        ((1 ∷ 0 ∷ []) ∷ (2 ∷ 0 ∷ []) ∷ (2 ∷ 1 ∷ []) ∷ (3 ∷ 0 ∷ []) ∷ []) }
    ensures covered { AreCovered run (reverse events) }
{}

/// The bodies that the provider's child and the host gave and were given: replies by their tickets, asks with their
/// kinds, requests by their numbers and then the word of success, answers with their kinds.
pub fn lines()
    ensures lane { LaneTells run (reverse events) 0 ((0 ∷ []) ∷ (1 ∷ []) ∷ (2 ∷ []) ∷ (3 ∷ []) ∷ [])
        (piece (0 ∷ 0 ∷ []) None ∷ piece (1 ∷ 1 ∷ []) None ∷ piece (2 ∷ 2 ∷ []) None ∷ piece (3 ∷ 4 ∷ []) (Some (2 ∷ 1 ∷ [])) ∷ []) }
    ensures host { HostTells run (reverse events) ((1 ∷ []) ∷ (2 ∷ []) ∷ (0 ∷ []) ∷ []) ((1 ∷ 0 ∷ []) ∷ (2 ∷ 0 ∷ []) ∷ []) }
{}
