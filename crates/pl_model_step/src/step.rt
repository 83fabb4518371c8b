ghost use Rattle.pl_model_step.specs.Enough.{SameMayHappen, SummaryIsEnough};
ghost use Rattle.pl_model_step.specs.Law.{SummarySteps, SummaryTells};
ghost use Rattle.pl_model_step.specs.Reads.{PlainReadsSame, SummaryKnowsSame};

/// The law that one event more changes the summary of a history as the step says. It is proved and does nothing, as
/// those below.
pub fn summary_steps()
    ensures { SummarySteps }
{}

/// The law that the summary of a history has what the history tells of its tickets and of what was recorded.
pub fn summary_tells()
    ensures { SummaryTells }
{}

/// The law that the plain events of a summary are read as its history is.
pub fn plain_reads_same()
    ensures { PlainReadsSame }
{}

/// The law that fates, rows and what is to be done follow from the summary as from its history.
pub fn summary_knows_same()
    ensures { SummaryKnowsSame }
{}

/// The law that histories with the same summary go on the same.
pub fn summary_is_enough()
    ensures { SummaryIsEnough }
{}

/// The law that what may happen after one of them may happen after the other.
pub fn same_may_happen()
    ensures { SameMayHappen }
{}
