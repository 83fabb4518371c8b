ghost use Rattle.pl_model_stays.specs.Choosing.{CheckedOrNew, ChosenLaneDue, LaneThereLeast, TableDecides, TableTells, TakenOrNone, TooManyAgrees};

/// The law that an operation that is due is due on the lane that is chosen for it.
pub fn chosen_lane_due()
    ensures { ChosenLaneDue }
{}

/// The law that this lane, where it is one that there is, is the least on which the operation is due.
pub fn lane_there_least()
    ensures { LaneThereLeast }
{}

/// The law that a provider whose first lane is to be configured wants no new one.
pub fn checked_or_new()
    ensures { CheckedOrNew }
{}

/// The law that a table of lanes tells the lane that is chosen.
pub fn table_tells()
    ensures { TableTells }
{}

/// The law that such a table tells whether an operation is due.
pub fn table_decides()
    ensures { TableDecides }
{}

/// The law that the test for too many resources answers as it should.
pub fn too_many_agrees()
    ensures { TooManyAgrees }
{}

/// The law that what is taken up is the first due work, or due work that is no post.
pub fn taken_or_none()
    ensures { TakenOrNone }
{}
