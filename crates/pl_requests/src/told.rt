ghost use Rattle.std.specs.Prelude.{◌≡◌, IfOk, OnErr, OnOk};
ghost use Rattle.pl_model.specs.Known.{has_problem};
ghost use Rattle.pl_model.specs.Requests as spec;
ghost use Rattle.pl_urn.specs.Grammar.{IsScope};
ghost use Rattle.pl_told.specs.Column.{prepared};
ghost use Rattle.pl_requests.specs.Column.{IsTold};
ghost use Rattle.pl_requests.specs.Ids.{ForKnown};

use crate::fate::{change_by, fate_by};
use pl_events::Request;
use pl_model::{Fate, Fixed};
use pl_told::{Change, Requests};
use pl_value::{OutOfMemory, Text};
use std::alloc::Global;

/// What becomes of a request that is told now; `halts` says whether a problem stands. `ids` are the ids of the
/// recorded providers, each at the number of its goal.
pub fn fate_of(
    alloc: Global,
    requests: &Requests,
    run: &Fixed,
    halts: bool,
    ids: &[Option<Text>],
    request: &Request,
) -> Result<Fate, OutOfMemory>
    requires stack { IsScope run.now.stack }
    requires project { IsScope run.now.project }
    ensures { IfOk result (λ fate. ForKnown run.now requests.now.goals ids.now (λ known.
        has_problem known ≡ halts → fate ≡ spec.fate_of known request.now)) }
{
    if halts {
        return Ok(Fate::Halted);
    }
    fate_by(alloc, requests, run, ids, request)
}

/// Makes what a request comes to that is told now, and takes the memory that it wants; `halts` says whether a problem
/// stands. `ids` are the ids of the recorded providers, each at the number of its goal.
pub fn prepare_told(
    alloc: Global,
    requests: &mut Requests,
    run: &Fixed,
    halts: bool,
    ids: &[Option<Text>],
    request: &Request,
) -> Result<Change, OutOfMemory>
    requires stack { IsScope run.now.stack }
    requires project { IsScope run.now.project }
    ensures told { IfOk result (λ change. ForKnown run.now requests.old.goals ids.now (λ known.
        has_problem known ≡ halts → IsTold known request.now change)) }
    ensures ready { OnOk result (requests.new ≡ prepared requests.old) }
    ensures unchanged { OnErr result (requests.new ≡ requests.old) }
{
    let fate = fate_of(alloc, requests, run, halts, ids, request)?;
    let change = change_by(alloc, requests, run, request, fate)?;
    requests.prepare()?;
    Ok(change)
}
