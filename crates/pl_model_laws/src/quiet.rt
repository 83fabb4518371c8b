ghost use Rattle.pl_model_laws.specs.Foreseen.{PreviewRecorded};
ghost use Rattle.pl_model_laws.specs.Quiet.{QuietIsDone};

/// The law that nothing waits in a circle: where nothing is out, due or over the limit, everything is done.
pub fn quiet_is_done()
    ensures { QuietIsDone }
{}

/// The same of a preview, which records every goal.
pub fn preview_recorded()
    ensures { PreviewRecorded }
{}
