ghost use Rattle.std.specs.Prelude.{◌≡◌};
ghost use Rattle.std.specs.Option.{option_copied};
ghost use Rattle.pl_columns.specs.Read.{history_by, known_by};
ghost use Rattle.pl_events.specs.declared.operation.Op.TheVariants as op;
ghost use Rattle.pl_events.specs.declared.operation.Source.TheVariants as source;
ghost use Rattle.pl_events.specs.declared.operation.Subject.TheVariants as subject;
ghost use Rattle.pl_lemmas.specs.Words.{some_passes};
ghost use Rattle.pl_model.specs.Decisions.{checked_in as checked_inputs};
ghost use Rattle.pl_model.specs.Due as spec;
ghost use Rattle.pl_model.specs.Tickets as tickets;
ghost use Rattle.pl_lanes.specs.Lanes as now;

use crate::sources::source_of_op;
use crate::words::{is_preview, is_source};
use pl_columns::Columns;
use pl_events::{Op, Reply, Source, Subject};
use pl_value::Fields;

/// The checked inputs in a reply.
pub fn checked_in<'a>(reply: Option<&'a Reply>) -> Option<&'a Fields>
    ensures { option_copied result ≡ checked_inputs (option_copied reply.entry) }
{
    match reply {
        Some(Reply::Checked(fields)) => Some(fields),
        _ => None,
    }
}

fn is_lane_from(columns: &Columns, lane: u64, wanted: Option<Source>) -> bool
    ensures { result ≡ some_passes (λ wanted. tickets.is_source (tickets.lane_source (history_by columns.now) lane) wanted) wanted }
{
    match wanted {
        None => false,
        Some(wanted) => is_source(columns.lane_source(lane), wanted),
    }
}

/// Whether a lane is a free one of an operation's provider.
pub fn is_lane_of(columns: &Columns, op: Op, lane: u64) -> bool
    ensures { result ≡ spec.is_lane_of (known_by columns.now) op lane }
{
    is_lane_from(columns, lane, source_of_op(columns, op)) && columns.is_free(lane)
}

fn may_configure(columns: &Columns, checked: &Fields) -> bool
    ensures { result ≡ spec.may_configure (known_by columns.now) checked.now }
{
    !(is_preview(&columns.run().mode) && checked.has_unknown())
}

/// Whether the inputs of a goal's provider were checked, and it is to be configured.
fn is_config_checked(columns: &Columns, number: u64) -> bool
    ensures { result ≡ some_passes (spec.may_configure (known_by columns.now))
        (checked_inputs (tickets.reply_to (known_by columns.now).answers (op.CheckConfig (subject.Goal number)))) }
{
    match checked_in(columns.reply_to(Op::CheckConfig(Subject::Goal(number)))) {
        None => false,
        Some(checked) => may_configure(columns, checked),
    }
}

fn is_checked_lane_of(columns: &Columns, number: u64, lane: u64) -> bool
    ensures { result ≡ spec.is_checked_lane (known_by columns.now) (source.Goal number) lane }
{
    let provider = Source::Goal(number);
    is_config_checked(columns, number)
        && is_source(columns.lane_source(lane), provider)
        && !columns.was_begun(Op::Configure(provider))
        && !columns.is_out(lane)
        && !columns.is_lost(lane)
}

/// Whether the lane is the one on which a provider's inputs were checked, and is to be configured now.
pub fn is_checked_lane(columns: &Columns, provider: Source, lane: u64) -> bool
    ensures { result ≡ spec.is_checked_lane (known_by columns.now) provider lane }
{
    match provider {
        Source::Goal(number) => is_checked_lane_of(columns, number, lane),
        Source::Row(_) => false,
    }
}

/// Whether the inputs of the provider that a goal is were checked and it is to be configured, which was not begun.
fn awaits_lane(columns: &Columns, number: u64) -> bool
    ensures { result ≡ now.awaits_lane (known_by columns.now) number }
{
    is_config_checked(columns, number) && !columns.was_begun(Op::Configure(Source::Goal(number)))
}

fn first_checked_lane(columns: &Columns, provider: Source) -> Option<u64>
    ensures { result ≡ now.checked_there (known_by columns.now) provider }
{
    (0..columns.lane_count()).find(|lane| is_checked_lane(columns, provider, *lane))
}

fn checked_there_of(columns: &Columns, number: u64) -> Option<u64>
    ensures { result ≡ now.checked_there (known_by columns.now) (source.Goal number) }
{
    if awaits_lane(columns, number) {
        first_checked_lane(columns, Source::Goal(number))
    } else {
        None
    }
}

/// The lane on which a provider's inputs were checked, where it is to be configured there.
pub fn checked_there(columns: &Columns, provider: Source) -> Option<u64>
    ensures { result ≡ now.checked_there (known_by columns.now) provider }
{
    match provider {
        Source::Goal(number) => checked_there_of(columns, number),
        Source::Row(_) => None,
    }
}
