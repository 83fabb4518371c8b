ghost use Rattle.pl_model_ends.specs.Ends.{CountWithin, StartWithin, StatesFormed, UpFulfils};

/// The law that an `up` that is done leaves its goals' entries and nothing else. It is proved and does nothing, as those below.
pub fn up_fulfils()
    ensures { UpFulfils }
{}

/// The law that the count of resources stays within the limit.
pub fn count_within()
    ensures { CountWithin }
{}

/// The law that it is within the limit at the start of a run that does not read everything anew.
pub fn start_within()
    ensures { StartWithin }
{}

/// The law that states keep the form that the checkpoint gives them.
pub fn states_formed()
    ensures { StatesFormed }
{}
