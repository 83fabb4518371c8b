ghost use Rattle.std.specs.Prelude.{◌≡◌, false, IfOk, OnErr, OnOk};
ghost use Rattle.pl_course.specs.Course.{known_now, with_event};
ghost use Rattle.pl_course.specs.Keeping.{left_by_keep, with_keep};
ghost use Rattle.pl_events.specs.declared.event.What.TheVariants as what;
ghost use Rattle.pl_lemmas.specs.Words.{has_number};
ghost use Rattle.pl_model.specs.Legal.{MayHappen};

use crate::held::Core;
use crate::laws::model_laws;
use pl_columns::Columns;
use pl_decide::Problem;
use pl_events::{Event, What};
use pl_problems::kept_problems;
use pl_value::OutOfMemory;
use std::alloc::Global;

/// Records a goal that needs no operation, and gives the problems of what is left, where the run is over by it. After
/// `OutOfMemory` it is not recorded.
fn keep_goal(
    alloc: Global,
    columns: &mut Columns,
    goal: u64,
    fresh: Option<u128>,
) -> Result<Vec<Problem>, OutOfMemory>
    requires { has_number columns.old.records.records.recorded goal ≡ false }
    ensures recorded { OnOk result (columns.new ≡ with_keep goal fresh columns.old) }
    ensures left { IfOk result (λ problems. problems.items ≡ left_by_keep goal fresh columns.old) }
    ensures unrecorded { OnErr result (columns.new ≡ record columns.old {
      records = record columns.old.records { ready = columns.new.records.ready };
    }) }
{
    let was_over = columns.is_over();
    columns.records.prepare()?;
    columns.records.keep_prepared(goal, fresh);
    match kept_problems(alloc, columns, was_over) {
        Ok(problems) => Ok(problems),
        Err(fault) => {
            columns.records.retract_keep();
            Err(fault)
        }
    }
}

impl Core {
    /// A goal that needs no operation is recorded as it is; a provider goal's keep carries the number that its id is
    /// made of. After `OutOfMemory` nothing has changed.
    pub fn keep(
        &mut self,
        alloc: Global,
        seat: u64,
        goal: u64,
        fresh: Option<u128>,
    ) -> Result<(), OutOfMemory>
        requires { MayHappen (known_now self.old) seat (what.Kept goal fresh) }
        ensures kept { OnOk result (self.new ≡ with_event seat (what.Kept goal fresh) self.old) }
        ensures unchanged { OnErr result (self.new ≡ self.old) }
    {
        model_laws();
        self.history.reserve(1)?;
        let problems = keep_goal(alloc, &mut self.columns, goal, fresh)?;
        let at = self.history.len() as u64;
        self.columns.troubles.add_all(at, problems);
        self.history.push_reserved(Event {
            seat,
            what: What::Kept { goal, fresh },
        });
        Ok(())
    }
}
