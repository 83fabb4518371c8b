ghost use Rattle.pl_model_laws.specs.Order.{DeletedAfterDependents, GoneAfterDependents};

/// The law that a deletion is begun only once no later row that refers to the row is left.
pub fn deleted_after_dependents()
    ensures { DeletedAfterDependents }
{}

/// The law that a row is deleted or dropped only once no later row that refers to it is left.
pub fn gone_after_dependents()
    ensures { GoneAfterDependents }
{}
