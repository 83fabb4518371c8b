ghost use Rattle.pl_told.specs.Undone.{IsUndone};

/// The law that a change which is taken back changes nothing. It is proved and does nothing.
pub fn changes_are_undone()
    ensures { IsUndone }
{}
