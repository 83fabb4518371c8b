ghost use Rattle.pl_components.specs.Laws.{AnsweredToo, FulfilsToo, LegalToo, LinesToo, OutcomesAgree, QuietToo, SavedToo, StatesAgree, StoryToo};

/// For the histories of component runs, each definition of this crate comes to the whole one. It is proved
/// and does nothing.
pub fn components_are_histories()
    ensures states { StatesAgree }
    ensures legal { LegalToo }
    ensures quiet { QuietToo }
    ensures outcomes { OutcomesAgree }
    ensures fulfils { FulfilsToo }
    ensures lines { LinesToo }
    ensures saved { SavedToo }
    ensures story { StoryToo }
    ensures answered { AnsweredToo }
{}
