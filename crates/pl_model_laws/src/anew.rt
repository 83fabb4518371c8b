ghost use Rattle.pl_model_laws.specs.Anew.{AnewRead, AnewSound};

/// The law that the state of a run that reads everything anew is sound.
pub fn anew_sound()
    ensures { AnewSound }
{}

/// The law that such a run has read every row once nothing is out, due or over the limit.
pub fn anew_read()
    ensures { AnewRead }
{}
