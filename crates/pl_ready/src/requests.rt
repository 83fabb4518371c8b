ghost use Rattle.std.specs.Prelude.{◌≡◌};
ghost use Rattle.std.specs.Option.{option_copied};
ghost use Rattle.pl_columns.specs.Read.{known_by};
ghost use Rattle.pl_model.specs.Due as spec;

use crate::unknown::{has_unknown_inputs, is_preview};
use pl_columns::Columns;
use pl_events::{Op, Reply, Request};
use pl_model::{Fate, Heard};

/// In a preview, whether a request is an invoke that is answered without being sent: its arguments or its provider's
/// inputs are not known.
pub fn is_unsent(columns: &Columns, request: &Request, about: Option<u64>) -> bool
    ensures { result ≡ spec.is_unsent (known_by columns.now) request.now about }
{
    match request {
        Request::Invoke { args, .. } => {
            is_preview(&columns.run().mode)
                && (args.has_unknown() || has_unknown_inputs(columns, about))
        }
        _ => false,
    }
}

fn is_result(reply: Option<&Reply>) -> bool
    ensures { result ≡ spec.is_result (option_copied reply.entry) }
{
    matches!(reply, Some(Reply::Result(_)))
}

fn is_recorded_about(columns: &Columns, about: Option<u64>) -> bool
    ensures { result ≡ spec.is_recorded_about (known_by columns.now) about }
{
    match about {
        None => false,
        Some(goal) => columns.is_recorded(goal),
    }
}

/// Whether an accepted request has its result.
pub fn has_result(columns: &Columns, request: &Request, about: Option<u64>) -> bool
    ensures { result ≡ spec.has_result (known_by columns.now) request.now about }
{
    match request {
        Request::Register { .. } => is_recorded_about(columns, about),
        Request::Outputs { .. } => is_recorded_about(columns, about),
        Request::Invoke { n, .. } => {
            is_result(columns.reply_to(Op::Invoke(*n))) || is_unsent(columns, request, about)
        }
    }
}

/// Whether a request has all that its answer needs: it is refused, or it is accepted and has its result.
pub fn is_settled_request(columns: &Columns, asked: &Heard) -> bool
    ensures { result ≡ spec.is_settled_request (known_by columns.now) asked.now }
{
    match asked.fate {
        Fate::Halted => false,
        Fate::Refused(_) => true,
        Fate::Accepted => has_result(columns, &asked.request, asked.about),
    }
}

/// Whether a request is to be answered now, wherever the host's writing half is.
pub fn is_post_due(columns: &Columns, n: u64) -> bool
    ensures { result ≡ spec.is_post_due (known_by columns.now) n }
{
    if columns.was_posted(n) {
        return false;
    }
    match columns.asked(n) {
        None => false,
        Some(asked) => {
            is_settled_request(columns, asked) || (columns.has_problem() && !columns.has_open())
        }
    }
}

/// Whether an accepted request is an invoke that is to be sent: its provider is recorded.
pub fn is_invoke(columns: &Columns, request: &Request, about: Option<u64>) -> bool
    ensures { result ≡ spec.is_invoke (known_by columns.now) request.now about }
{
    match request {
        Request::Invoke { .. } => {
            is_recorded_about(columns, about) && !is_unsent(columns, request, about)
        }
        _ => false,
    }
}
