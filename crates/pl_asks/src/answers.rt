ghost use Rattle.std.specs.Prelude.{◌≡◌, [], if◌then◌else◌, IfOk, option_map, Some};
ghost use Rattle.std.specs.Option.{option_copied};
ghost use Rattle.pl_asks.specs.Answered.{IsEntryAbout, TellsAnswers};
ghost use Rattle.pl_events.specs.Halted as unanswered;
ghost use Rattle.pl_events.specs.declared.event.Answer.TheVariants as answer;
ghost use Rattle.pl_model.specs.Known.{Known};
ghost use Rattle.pl_model.specs.Posts as spec;

use crate::unsent::{is_recorded_about, is_unsent};
use pl_columns::Columns;
use pl_decide::Problem;
use pl_events::{Answer, Op, Reply, Request};
use pl_model::{Fate, Heard};
use pl_reference::copy_text;
use pl_state::Entry;
use pl_value::{Fields, OutOfMemory, Text};
use std::alloc::Global;

/// The name of a refusal, by which the host is told of it.
pub fn refusal_name(problem: &Problem) -> &'static str
    ensures { result.now ≡ spec.refusal_name problem.now }
{
    match problem {
        Problem::BadOption(_) => "BadOption",
        Problem::UnknownReference(_) => "UnknownReference",
        Problem::DuplicateUrn(_) => "DuplicateUrn",
        Problem::OutputsOfCustom(_) => "OutputsOfCustom",
        _ => "",
    }
}

/// The answer to a told request. `entry` is the entry of the goal that a registration is about, without outputs that
/// were told of it, and nothing else is asked of it.
pub fn answer_for(
    alloc: Global,
    columns: &Columns,
    asked: &Heard,
    entry: Option<&Entry>,
) -> Result<Answer, OutOfMemory>
    ensures { IfOk result (λ made. (known : Known) → TellsAnswers columns.now known
        → IsEntryAbout known asked.now.request asked.now.about (option_copied entry.entry)
        → made ≡ spec.answer_for known (Some asked.now)) }
{
    match &asked.fate {
        Fate::Halted => halted(alloc),
        Fate::Refused(problem) => refused(alloc, problem),
        Fate::Accepted => result_of(alloc, columns, &asked.request, asked.about, entry),
    }
}

/// The answer to a request without a result.
pub fn halted(alloc: Global) -> Result<Answer, OutOfMemory>
    ensures { IfOk result (λ made. made ≡ unanswered.halted) }
{
    Ok(Answer::Refused(Text::from_str(alloc, "halted")?))
}

fn refused(alloc: Global, problem: &Problem) -> Result<Answer, OutOfMemory>
    ensures { IfOk result (λ made. made ≡ answer.Refused (spec.refusal_name problem.now)) }
{
    Ok(Answer::Refused(Text::from_str(alloc, refusal_name(problem))?))
}

fn result_of(
    alloc: Global,
    columns: &Columns,
    request: &Request,
    about: Option<u64>,
    entry: Option<&Entry>,
) -> Result<Answer, OutOfMemory>
    ensures { IfOk result (λ made. (known : Known) → TellsAnswers columns.now known
        → IsEntryAbout known request.now about (option_copied entry.entry)
        → made ≡ spec.result_of known request.now about) }
{
    match request {
        Request::Register { .. } => registered(alloc, entry),
        Request::Outputs { .. } => noted(alloc, is_recorded_about(columns, about)),
        Request::Invoke { n, .. } => {
            let unsent = is_unsent(columns, request, about);
            let reply = columns.reply_to(Op::Invoke(*n));
            invoked(alloc, unsent, reply)
        }
    }
}

fn registered(alloc: Global, entry: Option<&Entry>) -> Result<Answer, OutOfMemory>
    ensures { IfOk result (λ made. made ≡ spec.answer_or (option_map spec.registered (option_copied entry.entry))) }
{
    match entry {
        Some(entry) => Ok(Answer::Registered {
            urn: entry.urn.copy()?,
            id: copy_text(&entry.id)?,
            outputs: entry.outputs.copy(alloc)?,
        }),
        None => halted(alloc),
    }
}

fn noted(alloc: Global, recorded: bool) -> Result<Answer, OutOfMemory>
    ensures { IfOk result (λ made. made ≡ spec.only_answer recorded answer.Noted) }
{
    if recorded {
        Ok(Answer::Noted)
    } else {
        halted(alloc)
    }
}

/// The result of an invoke, by its reply if it was sent.
fn invoked(alloc: Global, unsent: bool, reply: Option<&Reply>) -> Result<Answer, OutOfMemory>
    ensures { IfOk result (λ made. made ≡ (if unsent then answer.Result [] else spec.answer_or (spec.result_in (option_copied reply.entry)))) }
{
    if unsent {
        return Ok(Answer::Result(Fields::new(alloc)));
    }
    match reply {
        Some(Reply::Result(fields)) => Ok(Answer::Result(fields.copy(alloc)?)),
        _ => halted(alloc),
    }
}
