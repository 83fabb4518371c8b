ghost use Rattle.pl_columns.specs.Follows.{TicketsFollow};

/// The law that the tickets of a summary change by an event as they do by themselves. It is proved and does nothing.
pub fn tickets_follow()
    ensures { TicketsFollow }
{}
