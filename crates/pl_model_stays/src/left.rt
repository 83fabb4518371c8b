ghost use Rattle.pl_model_stays.specs.Falling.{LeftFalls, LeftStays};

/// The law that less work is left with each piece of work.
pub fn left_falls()
    ensures { LeftFalls }
{}

/// The law that no more work is left with an event that tells no request.
pub fn left_stays()
    ensures { LeftStays }
{}
