ghost use Rattle.pl_model_laws.specs.Closure.{ChainClosed, ChainLeast};

/// The law that the chain of a row has what refers to the row, directly or through others.
pub fn chain_closed()
    ensures { ChainClosed }
{}

/// The law that it has nothing else.
pub fn chain_least()
    ensures { ChainLeast }
{}
