ghost use Rattle.pl_turns.specs.Undone.{IsUndone};

/// The law that decisions which are taken back leave those before them. It is proved and does nothing.
pub fn settling_is_undone()
    ensures { IsUndone }
{}
