ghost use Rattle.std.specs.Prelude.{◌≡◌, None, map};
ghost use Rattle.std.specs.List.{fold};
ghost use Rattle.pl_columns.specs.Read.{known_by};
ghost use Rattle.pl_model.specs.Due.{operations_of};
ghost use Rattle.pl_events.specs.declared.operation.Op.TheVariants as op;
ghost use Rattle.pl_due.specs.Now as spec;
ghost use Rattle.pl_due.specs.Seen.{known_in};

use crate::kind::{Kind, op_at};
use crate::seen::Seen;
use pl_columns::Columns;
use pl_events::{Op, Source};
use pl_lanes::source_of_op;
use pl_model::Work;

/// Whether one more lane may be started for a provider: none of it is free or being configured, and it has fewer than
/// it may have.
fn lacks_lane(columns: &Columns, wanted: Source) -> bool
    ensures { result ≡ spec.lacks_lane (known_by columns.now) wanted }
{
    columns.lane_free(wanted).is_none()
        && !columns.has_coming(wanted)
        && columns.lanes_from(wanted) < columns.run().parallel
}

fn is_listed(columns: &Columns, provider: Source) -> bool
    ensures { result ≡ spec.is_listed (known_by columns.now) provider }
{
    match provider {
        Source::Goal(number) => number < columns.requests.len(),
        Source::Row(row) => row < columns.row_count(),
    }
}

fn is_before(first: Source, second: Source) -> bool
    ensures { result ≡ spec.is_before first second }
{
    match (first, second) {
        (Source::Goal(first), Source::Goal(second)) => first < second,
        (Source::Goal(_), Source::Row(_)) => true,
        (Source::Row(_), Source::Goal(_)) => false,
        (Source::Row(first), Source::Row(second)) => second < first,
    }
}

/// The first of two providers in the order of choice.
fn earlier(best: Option<Source>, other: Source) -> Source
    ensures { result ≡ spec.earlier best other }
{
    match best {
        None => other,
        Some(best) => { if is_before(other, best) { other } else { best } }
    }
}

impl Seen<'_> {
    /// The provider that wants a lane for an operation, if there is one.
    fn wanting_for(&self, op: Op) -> Option<Source>
        ensures { result ≡ spec.wanting_for self.now op }
    {
        match source_of_op(self.columns, op) {
            None => None,
            Some(own) => {
                if self.is_wanted_op(op)
                    && !self.passes_limit(Work::Send(op))
                    && (is_listed(self.columns, own) && lacks_lane(self.columns, own))
                {
                    Some(own)
                } else {
                    None
                }
            }
        }
    }

    /// The first provider that wants a lane, with one operation more.
    fn better(&self, best: Option<Source>, op: Op) -> Option<Source>
        ensures { result ≡ spec.better self.now best op }
    {
        match self.wanting_for(op) {
            None => best,
            Some(other) => Some(earlier(best, other)),
        }
    }

    /// The same with all operations of a kind.
    fn best_of_kind(&self, first: Option<Source>, kind: Kind, count: u64) -> Option<Source>
        ensures { result ≡ fold (spec.better self.now) first (spec.works_at kind count) }
    {
        let mut best = first;
        for number in 0..count {
            best = self.better(best, op_at(kind, number));
        }
        best
    }

    /// The same with all invokes.
    fn best_of_invokes(&self, first: Option<Source>) -> Option<Source>
        ensures { result ≡ fold (spec.better self.now) first (map op.Invoke self.now.requests.now) }
    {
        let mut best = first;
        for n in self.requests {
            best = self.better(best, Op::Invoke(*n));
        }
        best
    }

    fn best_of_checks(&self, first: Option<Source>) -> Option<Source>
        ensures { result ≡ fold (spec.better self.now) first (spec.check_works (known_in self.now)) }
    {
        let count = self.columns.requests.len();
        let best = self.best_of_kind(first, Kind::Check, count);
        self.best_of_kind(best, Kind::Diff, count)
    }

    fn best_of_sends(&self, first: Option<Source>) -> Option<Source>
        ensures { result ≡ fold (spec.better self.now) first (spec.send_works (known_in self.now)) }
    {
        let count = self.columns.requests.len();
        let best = self.best_of_kind(first, Kind::Create, count);
        let best = self.best_of_kind(best, Kind::Update, count);
        self.best_of_kind(best, Kind::ReadGoal, count)
    }

    fn best_of_all(&self) -> Option<Source>
        ensures { result ≡ fold (spec.better self.now) None (spec.all_works self.now) }
    {
        let rows = self.columns.row_count();
        let best = self.best_of_kind(None, Kind::Delete, rows);
        let best = self.best_of_checks(best);
        let best = self.best_of_sends(best);
        let best = self.best_of_kind(best, Kind::ReadRow, rows);
        let imports = self.columns.run().base.pending.len() as u64;
        let best = self.best_of_kind(best, Kind::Import, imports);
        self.best_of_invokes(best)
    }

    /// The first provider, in the order of choice, that wants a lane. Its time grows with the number of operations that
    /// there may be, and for each that is to be done with that of lanes.
    pub fn wanting(&self) -> Option<Source>
        ensures { result ≡ spec.first_wanting self.now (operations_of (known_in self.now)) }
    {
        self.best_of_all()
    }
}
