//! A thing is replaced, the old one deleted first, and its chain before it, on two lanes: everything that is said of a
//! run holds of this one.

ghost use Rattle.std.specs.Prelude.{◌≡◌, [], ◌∷◌, false, None, reverse, Some, true};
ghost use Rattle.pl_model.specs.Due.{IsQuiet};
ghost use Rattle.pl_model.specs.Fulfilment.{Fulfils};
ghost use Rattle.pl_model.specs.Known.{is_over};
ghost use Rattle.pl_model.specs.Legal.{IsLegal};
ghost use Rattle.pl_model.specs.Posts.{AllAnswered};
ghost use Rattle.pl_model.specs.RunData.{IsRun, IsSpelling};
ghost use Rattle.pl_model.specs.Saves.{IsSaved, IsStory};
ghost use Rattle.pl_model.specs.State.{state_of};
ghost use Rattle.pl_model_legal.specs.ChainDone.{all_events, marks, texts};
ghost use Rattle.pl_model_legal.specs.Small.{spelling_of};
ghost use Rattle.pl_model_legal.specs.Whole.{AreCovered, HostTells, LaneTells, piece};
ghost use Rattle.pl_model_rows.specs.Prefixes.{known_end};
ghost use Rattle.pl_model_rows.specs.TakesChain.{run};

/// Its data are those of a run, and its history is one that such a run may have.
pub fn legal()
    ensures run { IsRun run }
    ensures spelling { IsSpelling (spelling_of (reverse all_events)) }
    ensures legal { IsLegal run (spelling_of (reverse all_events)) (reverse all_events) }
{}

/// At its end nothing is left to do, every request is answered, and the state has what was asked for.
pub fn done()
    ensures over { is_over (known_end run all_events) ≡ true }
    ensures quiet { IsQuiet (known_end run all_events) }
    ensures answered { AllAnswered (known_end run all_events) }
    ensures fulfils { Fulfils run (state_of run (reverse all_events)) (reverse all_events) }
{}

/// Its marks and the texts of its states, with no fault and no want of memory.
pub fn saved()
    ensures marks { IsSaved run ⊥ false (reverse all_events) marks }
    ensures story { IsStory run (spelling_of (reverse all_events)) ⊥ (reverse all_events) marks texts }
{}

/// What stands in the checkpoint before each of the update, the four deletions and the four creations is sent.
pub fn covered()
    ensures { AreCovered run (reverse all_events) }
{}

/// The bodies that the provider's two children and the host gave and were given: replies by their tickets, asks with
/// their kinds, requests by their numbers and then the word of success, answers with their kinds.
pub fn lines()
    ensures first { LaneTells run (reverse all_events) 0
        ((0 ∷ []) ∷ (1 ∷ []) ∷ (2 ∷ []) ∷ (3 ∷ []) ∷ (4 ∷ []) ∷ (11 ∷ []) ∷ (12 ∷ []) ∷ (13 ∷ []) ∷ (14 ∷ []) ∷ (15 ∷ [])
        ∷ (16 ∷ []) ∷ (17 ∷ []) ∷ (18 ∷ []) ∷ [])
        (piece (0 ∷ 0 ∷ []) None ∷ piece (1 ∷ 1 ∷ []) None ∷ piece (2 ∷ 2 ∷ []) None ∷ piece (3 ∷ 3 ∷ []) None
        ∷ piece (4 ∷ 5 ∷ []) (Some (7 ∷ 1 ∷ [])) ∷ piece (11 ∷ 6 ∷ []) (Some (4 ∷ 1 ∷ [])) ∷ piece (12 ∷ 4 ∷ []) (Some (4 ∷ 1 ∷ []))
        ∷ piece (13 ∷ 2 ∷ []) None ∷ piece (14 ∷ 2 ∷ []) None ∷ piece (15 ∷ 2 ∷ []) None
        ∷ piece (16 ∷ 4 ∷ []) (Some (4 ∷ 1 ∷ [])) ∷ piece (17 ∷ 4 ∷ []) (Some (5 ∷ 1 ∷ [])) ∷ piece (18 ∷ 4 ∷ []) (Some (6 ∷ 1 ∷ [])) ∷ []) }
    ensures second { LaneTells run (reverse all_events) 1
        ((5 ∷ []) ∷ (6 ∷ []) ∷ (7 ∷ []) ∷ (8 ∷ []) ∷ (9 ∷ []) ∷ (10 ∷ []) ∷ [])
        (piece (5 ∷ 1 ∷ []) None ∷ piece (6 ∷ 2 ∷ []) None ∷ piece (7 ∷ 3 ∷ []) None
        ∷ piece (8 ∷ 6 ∷ []) (Some (7 ∷ 2 ∷ [])) ∷ piece (9 ∷ 6 ∷ []) (Some (6 ∷ 2 ∷ [])) ∷ piece (10 ∷ 6 ∷ []) (Some (5 ∷ 2 ∷ [])) ∷ []) }
    ensures host { HostTells run (reverse all_events)
        ((1 ∷ []) ∷ (2 ∷ []) ∷ (3 ∷ []) ∷ (4 ∷ []) ∷ (5 ∷ []) ∷ (6 ∷ []) ∷ (0 ∷ []) ∷ [])
        ((1 ∷ 0 ∷ []) ∷ (2 ∷ 0 ∷ []) ∷ (3 ∷ 0 ∷ []) ∷ (4 ∷ 0 ∷ []) ∷ (5 ∷ 0 ∷ []) ∷ (6 ∷ 0 ∷ []) ∷ []) }
{}
