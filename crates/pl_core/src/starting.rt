ghost use Rattle.std.specs.Prelude.{◌≡◌, ◌+◌, [], IfErr, IfOk, length, reverse, true};
ghost use Rattle.pl_claims.specs.Columns.{nothing_decided};
ghost use Rattle.pl_course.specs.Course.{no_event};
ghost use Rattle.pl_model.specs.Run.{has_host, HasNames, rows_of};
ghost use Rattle.pl_records.specs.Columns.{nothing_kept};
ghost use Rattle.pl_sound.specs.Sound.{IsSound};

use crate::held::Core;
use pl_base::Base;
use pl_claims::Claims;
use pl_columns::Columns;
use pl_errands::Errands;
use pl_events::{Event, History};
use pl_model::Fixed;
use pl_records::Records;
use pl_state::Snapshot;
use pl_told::Requests;
use pl_troubles::Troubles;
use pl_value::OutOfMemory;
use std::alloc::Global;

/// No event yet, with room for one drop a row, one clear a pending operation, the host's end and the stop.
fn new_history(alloc: Global, base: &Snapshot) -> Result<History, OutOfMemory>
    ensures { IfOk result (λ history. history ≡ record {
      events = [];
      room = length base.now.entries + length base.now.pending + 2;
    }) }
{
    let mut history = History::new(alloc);
    history.reserve(base.entries.len())?;
    history.reserve(base.pending.len())?;
    history.reserve(2)?;
    Ok(history)
}

fn new_records(alloc: Global, base: &Snapshot) -> Result<Records, OutOfMemory>
    ensures { IfOk result (λ records. records ≡ nothing_kept (length base.now.entries) (length base.now.pending)) }
{
    Records::new(alloc, base.entries.len() as u64, base.pending.len() as u64)
}

/// Nothing is decided; after `OutOfMemory` what the run is over is given back.
fn new_claims(alloc: Global, run: Fixed) -> Result<Claims, (Fixed, OutOfMemory)>
    requires { IsSound (rows_of run) }
    ensures nothing { IfOk result (λ claims. claims ≡ nothing_decided run) }
    ensures given_back { IfErr result (λ fault. fault.0 ≡ run) }
{
    match Base::new(alloc, run) {
        Err(fault) => Err(fault),
        Ok(base) => match Claims::new(alloc, base) {
            Err((base, fault)) => Err((base.into_run(), fault)),
            Ok(claims) => Ok(claims),
        },
    }
}

impl Core {
    /// A run with a host, in which nothing has happened yet. After `OutOfMemory` what it is over is given back.
    pub fn new(alloc: Global, run: Fixed) -> Result<Core, (Fixed, OutOfMemory)>
        requires sound { IsSound (rows_of run) }
        requires host { has_host run.mode ≡ true }
        requires names { HasNames run }
        ensures nothing { IfOk result (λ core. core ≡ no_event run) }
        ensures given_back { IfErr result (λ fault. fault.0 ≡ run) }
    {
        let Ok(history) = new_history(alloc, &run.base) else {
            return Err((run, OutOfMemory));
        };
        let Ok(records) = new_records(alloc, &run.base) else {
            return Err((run, OutOfMemory));
        };
        match new_claims(alloc, run) {
            Err(fault) => Err(fault),
            Ok(claims) => Ok(Core {
                columns: Columns {
                    requests: Requests::new(alloc),
                    errands: Errands::new(alloc),
                    claims,
                    records,
                    troubles: Troubles::new(alloc),
                },
                history,
            }),
        }
    }

    /// Gives the events back, the oldest first.
    pub fn into_events(self) -> Vec<Event>
        ensures { reverse result.items ≡ self.history }
    {
        let Core { history, .. } = self;
        history.into_events()
    }
}
