ghost use Rattle.pl_model_laws.specs.Kept.{SentSourced, UnsavedStays};

/// The law that what is to be done has the provider that it is sent to, or a problem stands.
pub fn sent_sourced()
    ensures { SentSourced }
{}

/// The law that an event that need not be saved leaves the state as it was.
pub fn unsaved_stays()
    ensures { UnsavedStays }
{}
