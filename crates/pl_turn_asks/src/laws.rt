ghost use Rattle.pl_turn_asks.specs.Dues.{DeletesKept, KeepsDecided, SendsDecided};
ghost use Rattle.pl_turn_asks.specs.Entries.{KeptIsMadeAgain, UntoldIsRecorded};
ghost use Rattle.pl_turn_asks.specs.Kept.{KeptAlike, KeptAreOld, KeptAtStart};

/// The laws that a merged snapshot has the row that an operation deletes which is due, that the rows which it keeps are
/// the old entries of the state, that they are so by whatever knows the same of the run, and at its start. They are
/// proved and do nothing.
pub fn deleted_rows_are_kept()
    ensures due { DeletesKept }
    ensures entries { KeptAreOld }
    ensures alike { KeptAlike }
    ensures start { KeptAtStart }
{}

/// The laws that the provider of a goal is decided where the goal's operation or keep is due. They are proved and do
/// nothing.
pub fn providers_are_decided()
    ensures sends { SendsDecided }
    ensures keeps { KeepsDecided }
{}

/// The laws of the entry of a goal without the outputs that were told of it: where none were told, it is the one that
/// the state has; where the goal was kept and is no provider, it is the one that a keep records. They are proved and do
/// nothing.
pub fn answered_entries()
    ensures untold { UntoldIsRecorded }
    ensures kept { KeptIsMadeAgain }
{}
