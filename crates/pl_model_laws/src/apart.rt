ghost use Rattle.pl_model_laws.specs.Apart.{GoalsApart, StatesApart, TurnedOnce};

/// The law that no two goals of an orderly history have the same URN.
pub fn goals_apart()
    ensures { GoalsApart }
{}

/// The law that in the state of an orderly history no two rows that are not to be deleted have the same URN.
pub fn states_apart()
    ensures { StatesApart }
{}

/// The law that no URN that one alias made is turned by another.
pub fn turned_once()
    ensures { TurnedOnce }
{}
