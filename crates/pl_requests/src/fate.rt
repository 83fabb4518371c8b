ghost use Rattle.std.specs.Prelude.{◌≡◌, IfOk};
ghost use Rattle.pl_model.specs.Requests as spec;
ghost use Rattle.pl_urn.specs.Grammar.{IsScope};
ghost use Rattle.pl_requests.specs.Ids.{ForKnown};
ghost use Rattle.pl_requests.specs.Column.{IsChangeBy, accepted_with, unmade};

use crate::making::{Making, goals_made};
use crate::refusal::refusal_of;
use pl_events::Request;
use pl_model::{Fate, Fixed, Heard};
use pl_told::{Change, Requests};
use pl_value::{OutOfMemory, Text};
use std::alloc::Global;

/// The fate of a request that is told where no problem stands.
pub fn fate_by(
    alloc: Global,
    requests: &Requests,
    run: &Fixed,
    ids: &[Option<Text>],
    request: &Request,
) -> Result<Fate, OutOfMemory>
    requires stack { IsScope run.now.stack }
    requires project { IsScope run.now.project }
    ensures { IfOk result (λ fate. ForKnown run.now requests.now.goals ids.now (λ known. fate ≡ spec.fate_by (spec.refusal_of known request.now))) }
{
    match refusal_of(alloc, requests, run, ids, request)? {
        None => Ok(Fate::Accepted),
        Some(problem) => Ok(Fate::Refused(problem)),
    }
}

/// What a request with its fate comes to.
pub fn change_by(
    alloc: Global,
    requests: &Requests,
    run: &Fixed,
    request: &Request,
    fate: Fate,
) -> Result<Change, OutOfMemory>
    requires stack { IsScope run.now.stack }
    requires project { IsScope run.now.project }
    ensures { IfOk result (IsChangeBy run.now requests.now.goals request.now fate) }
{
    match fate {
        Fate::Accepted => {
            let making = goals_made(alloc, requests, run, request)?;
            accepted(alloc, request, making)
        }
        other => unmade(alloc, request, other),
    }
}

/// A request with its fate, which makes no goal.
fn unmade(alloc: Global, request: &Request, fate: Fate) -> Result<Change, OutOfMemory>
    ensures { IfOk result (λ change. change ≡ unmade request.now fate) }
{
    let request = request.copy(alloc)?;
    let heard = Heard {
        request,
        fate,
        about: None,
    };
    Ok(Change::new(None, None, heard))
}

/// An accepted request with the goals that it makes.
fn accepted(alloc: Global, request: &Request, making: Making) -> Result<Change, OutOfMemory>
    ensures { IfOk result (λ change. change ≡ accepted_with making request.now) }
{
    let Making {
        default,
        own,
        about,
    } = making;
    let request = request.copy(alloc)?;
    let heard = Heard {
        request,
        fate: Fate::Accepted,
        about,
    };
    Ok(Change::new(default, own, heard))
}
