ghost use Rattle.pl_troubles.specs.Follows.{TroublesFollow};

/// The law that the problems of a summary change by an event as the calls say. It is proved and does nothing.
pub fn troubles_follow()
    ensures { TroublesFollow }
{}
