ghost use Rattle.std.specs.Prelude.{◌≡◌};
ghost use Rattle.pl_model.specs.Problems as problems;
ghost use Rattle.pl_model.specs.Run as run;
ghost use Rattle.pl_model.specs.Tickets as tickets;

use pl_decide::is_provided_row;
use pl_events::Source;
use pl_model::Mode;
use pl_state::Entry;

/// Whether the run tells what would be done, and does none of it.
pub fn is_preview(mode: &Mode) -> bool
    ensures { result ≡ run.is_preview mode.now }
{
    matches!(mode, Mode::Preview)
}

/// Whether the run reads everything anew.
pub fn is_refresh(mode: &Mode) -> bool
    ensures { result ≡ run.is_refresh mode.now }
{
    matches!(mode, Mode::Refresh { .. })
}

/// Whether a row is one to be read anew: it has a provider, and its replacement is not pending.
pub fn is_to_read(row: &Entry) -> bool
    ensures { result ≡ problems.is_to_read row.now }
{
    is_provided_row(row) && !row.pending_replacement
}

/// Whether a provider is there, and is this one.
pub fn is_source(own: Option<Source>, wanted: Source) -> bool
    ensures { result ≡ tickets.is_source own wanted }
{
    match own {
        None => false,
        Some(own) => same_source(own, wanted),
    }
}

fn same_source(first: Source, second: Source) -> bool
    ensures { result ≡ tickets.same_source first second }
{
    match (first, second) {
        (Source::Goal(first), Source::Goal(second)) => first == second,
        (Source::Row(first), Source::Row(second)) => first == second,
        _ => false,
    }
}
