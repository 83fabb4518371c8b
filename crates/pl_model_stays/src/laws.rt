ghost use Rattle.pl_model_stays.specs.Laws.{BegunOnce, ClosedOnce, DecisionsStay, GoalsStay, RecordedOnce, RecordingsStay, RequestsStay};

/// The law that a goal keeps its number when the history grows. It is proved and does nothing, as those below.
pub fn goals_stay()
    ensures { GoalsStay }
{}

/// The law that what is decided stays when the history grows.
pub fn decisions_stay()
    ensures { DecisionsStay }
{}

/// The law that what is recorded stays recorded.
pub fn recordings_stay()
    ensures { RecordingsStay }
{}

/// The law that a told request keeps its fate and what it is about.
pub fn requests_stay()
    ensures { RequestsStay }
{}

/// The law that a ticket is closed at most once in an orderly history.
pub fn closed_once()
    ensures { ClosedOnce }
{}

/// The law that an orderly history begins no operation twice, but that each lane of a provider is configured.
pub fn begun_once()
    ensures { BegunOnce }
{}

/// The law that an orderly history records no goal twice.
pub fn recorded_once()
    ensures { RecordedOnce }
{}
