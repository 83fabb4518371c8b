ghost use Rattle.pl_value.specs.Same.{SameTellsFields, SameTellsValues};

/// The law that the tests of values and of fields are true exactly for the same ones. It is proved and does nothing.
pub fn same_tells()
    ensures values { SameTellsValues }
    ensures fields { SameTellsFields }
{}
