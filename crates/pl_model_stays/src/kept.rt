ghost use Rattle.pl_model_stays.specs.Kept.{DueAsked, DueOpens, EntriesStay, RecordedHasEntry};

/// The law that a recorded goal has its entry.
pub fn recorded_has_entry()
    ensures { RecordedHasEntry }
{}

/// The law that the claim, the checked inputs and the entry of a recorded goal stay.
pub fn entries_stay()
    ensures { EntriesStay }
{}

/// The law that an operation that is due has what a provider is asked by it.
pub fn due_asked()
    ensures { DueAsked }
{}

/// The law that one that changes a thing has what it opens as pending.
pub fn due_opens()
    ensures { DueOpens }
{}
