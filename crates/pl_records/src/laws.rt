ghost use Rattle.pl_records.specs.Follows.{RecordsFollow};
ghost use Rattle.pl_records.specs.Reads.{PlainTells};

/// The law that the records follow the summary of a history event by event. It is proved and does nothing.
pub fn records_follow()
    ensures { RecordsFollow }
{}

/// The law that the plain events of a summary tell its columns and its records.
pub fn plain_tells()
    ensures { PlainTells }
{}
