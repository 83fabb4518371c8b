ghost use Rattle.pl_model_laws.specs.Covered.{BegunCovered};
ghost use Rattle.pl_model_laws.specs.Soundness.{StatesSound};

/// The law that the state of an orderly history is sound where the state at the start is.
pub fn states_sound()
    ensures { StatesSound }
{}

/// The law that the state with an operation begun covers the operation.
pub fn begun_covered()
    ensures { BegunCovered }
{}
