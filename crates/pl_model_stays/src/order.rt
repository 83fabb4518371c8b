ghost use Rattle.pl_model_stays.specs.Order.{RecordedAfterReferences, SentAfterReferences};

/// The law that what makes, changes or reads a goal's thing is begun after the goals of its references are recorded.
pub fn sent_after_references()
    ensures { SentAfterReferences }
{}

/// The law that a goal is recorded after the goals of its references.
pub fn recorded_after_references()
    ensures { RecordedAfterReferences }
{}
