use pl_columns::Columns;
use pl_events::History;
use std::marker::Model;

/// The events of a run, with what later steps read of them. It is seen as what the run is over and its events.
#[derive(Debug, Drop)]
pub struct Core {
    pub(crate) columns: Columns,
    pub(crate) history: History,
}

impl Model for Core {
    ghost use Rattle.std.specs.Coded.{codes};
    ghost use Rattle.pl_events.specs.contracts.event.Event as event;
    ghost use Rattle.pl_model.specs.contracts.fixed.Fixed as fixed;
    ghost use Rattle.pl_course.specs.Course.{Course};

    ghost Value = { Course };

    ghost coded = { Prim.hlevel (codes, event.the_row.coded, fixed.the_row.coded) };

    ghost use Rattle.pl_core.specs.Core.{course_by, IsCore};

    ghost view = { course_by };

    ghost invariant = { IsCore };
}
