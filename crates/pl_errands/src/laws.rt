ghost use Rattle.pl_errands.specs.Undone.{AnswersAreUndone};

/// The law that an answer which is taken back changes nothing. It is proved and does nothing.
pub fn answers_are_undone()
    ensures { AnswersAreUndone }
{}
