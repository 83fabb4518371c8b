ghost use Rattle.std.specs.Prelude.{◌≡◌, find, is_some, option_and_then, option_map, reverse};
ghost use Rattle.std.specs.List.{range_with_len};
ghost use Rattle.pl_events.specs.declared.operation.Op.TheVariants as op;
ghost use Rattle.pl_model.specs.Due as due;
ghost use Rattle.pl_due.specs.Now as spec;
ghost use Rattle.pl_due.specs.Seen.{known_in};

use crate::kind::{Kind, op_at};
use crate::seen::Seen;
use pl_events::{LaneView, Op, Source, Subject};
use pl_lanes::source_of_op;
use pl_model::Work;

/// Whether a table has a lane for a provider, if there is one.
pub fn has_lane<L: LaneView>(lanes: &L, provider: Option<Source>) -> bool
    ensures { result ≡ is_some (option_and_then (L.told lanes.now).free provider) }
{
    match provider {
        None => false,
        Some(provider) => lanes.lane_free(provider).is_some(),
    }
}

impl Seen<'_> {
    /// Whether an operation is to be sent to a lane that there is, where no problem stands.
    fn uses_now<L: LaneView>(&self, lanes: &L, op: Op) -> bool
        ensures { result ≡ spec.uses_now self.now (L.told lanes.now) op }
    {
        self.is_wanted_op(op)
            && has_lane(lanes, source_of_op(self.columns, op))
            && !self.passes_limit(Work::Send(op))
    }

    /// The first operation of a kind that is to be sent, by its number.
    fn first_of_kind<L: LaneView>(&self, lanes: &L, kind: Kind, count: u64) -> Option<u64>
        ensures { result ≡ find (λ number. spec.uses_now self.now (L.told lanes.now) (spec.op_at kind number)) (range_with_len 0 count) }
    {
        (0..count).find(|number| self.uses_now(lanes, op_at(kind, *number)))
    }

    /// The last operation of a kind that is to be sent, by its number.
    fn last_of_kind<L: LaneView>(&self, lanes: &L, kind: Kind, count: u64) -> Option<u64>
        ensures { result ≡ find (λ number. spec.uses_now self.now (L.told lanes.now) (spec.op_at kind number)) (reverse (range_with_len 0 count)) }
    {
        let mut left = count;
        while left > 0 {
            left -= 1;
            if self.uses_now(lanes, op_at(kind, left)) {
                return Some(left);
            }
        }
        None
    }

    /// The first operation of a kind that is to be sent.
    fn first_op<L: LaneView>(&self, lanes: &L, kind: Kind, count: u64) -> Option<Op>
        ensures { result ≡ option_map (spec.op_at kind)
            (find (λ number. spec.uses_now self.now (L.told lanes.now) (spec.op_at kind number)) (range_with_len 0 count)) }
    {
        match self.first_of_kind(lanes, kind, count) {
            None => None,
            Some(number) => Some(op_at(kind, number)),
        }
    }

    /// The last operation of a kind that is to be sent.
    fn last_op<L: LaneView>(&self, lanes: &L, kind: Kind, count: u64) -> Option<Op>
        ensures { result ≡ option_map (spec.op_at kind)
            (find (λ number. spec.uses_now self.now (L.told lanes.now) (spec.op_at kind number)) (reverse (range_with_len 0 count))) }
    {
        match self.last_of_kind(lanes, kind, count) {
            None => None,
            Some(number) => Some(op_at(kind, number)),
        }
    }

    fn checks_goal<L: LaneView>(&self, lanes: &L, number: u64) -> bool
        ensures { result ≡ spec.checks_now self.now (L.told lanes.now) number }
    {
        self.uses_now(lanes, Op::Check(Subject::Goal(number)))
            || self.uses_now(lanes, Op::Diff(Subject::Goal(number)))
    }

    fn check_op<L: LaneView>(&self, lanes: &L, number: u64) -> Op
        ensures { result ≡ spec.check_op self.now (L.told lanes.now) number }
    {
        let check = Op::Check(Subject::Goal(number));
        if self.uses_now(lanes, check) {
            check
        } else {
            Op::Diff(Subject::Goal(number))
        }
    }

    fn first_checked<L: LaneView>(&self, lanes: &L) -> Option<u64>
        ensures { result ≡ find (spec.checks_now self.now (L.told lanes.now)) (due.goal_numbers (known_in self.now)) }
    {
        (0..self.columns.requests.len()).find(|number| self.checks_goal(lanes, *number))
    }

    /// The first check or diff of a goal that is to be sent.
    fn first_check<L: LaneView>(&self, lanes: &L) -> Option<Op>
        ensures { result ≡ find (spec.sends_now self.now (L.told lanes.now)) (due.checks_of (known_in self.now)) }
    {
        match self.first_checked(lanes) {
            None => None,
            Some(number) => Some(self.check_op(lanes, number)),
        }
    }

    fn makes_goal<L: LaneView>(&self, lanes: &L, number: u64) -> bool
        ensures { result ≡ spec.makes_now self.now (L.told lanes.now) number }
    {
        self.uses_now(lanes, Op::Create(Subject::Goal(number)))
            || self.uses_now(lanes, Op::Update(Subject::Goal(number)))
            || self.uses_now(lanes, Op::Read(Subject::Goal(number)))
    }

    fn make_op<L: LaneView>(&self, lanes: &L, number: u64) -> Op
        ensures { result ≡ spec.make_op self.now (L.told lanes.now) number }
    {
        let goal = Subject::Goal(number);
        if self.uses_now(lanes, Op::Create(goal)) {
            Op::Create(goal)
        } else if self.uses_now(lanes, Op::Update(goal)) {
            Op::Update(goal)
        } else {
            Op::Read(goal)
        }
    }

    fn first_made<L: LaneView>(&self, lanes: &L) -> Option<u64>
        ensures { result ≡ find (spec.makes_now self.now (L.told lanes.now)) (due.goal_numbers (known_in self.now)) }
    {
        (0..self.columns.requests.len()).find(|number| self.makes_goal(lanes, *number))
    }

    /// The first creation, update or reading of a goal's thing that is to be sent.
    fn first_make<L: LaneView>(&self, lanes: &L) -> Option<Op>
        ensures { result ≡ find (spec.sends_now self.now (L.told lanes.now)) (due.sends_of (known_in self.now)) }
    {
        match self.first_made(lanes) {
            None => None,
            Some(number) => Some(self.make_op(lanes, number)),
        }
    }

    fn first_invoked<L: LaneView>(&self, lanes: &L) -> Option<u64>
        ensures { result ≡ find (λ n. spec.uses_now self.now (L.told lanes.now) (op.Invoke n)) self.now.requests.now }
    {
        self.requests
            .iter()
            .copied()
            .find(|n| self.uses_now(lanes, Op::Invoke(*n)))
    }

    /// The first invoke that is to be sent.
    fn first_invoke<L: LaneView>(&self, lanes: &L) -> Option<Op>
        ensures { result ≡ find (spec.sends_now self.now (L.told lanes.now)) (due.invokes_of (known_in self.now)) }
    {
        match self.first_invoked(lanes) {
            None => None,
            Some(n) => Some(Op::Invoke(n)),
        }
    }

    fn last_delete<L: LaneView>(&self, lanes: &L) -> Option<Op>
        ensures { result ≡ find (spec.sends_now self.now (L.told lanes.now)) (due.deletes_of (known_in self.now)) }
    {
        self.last_op(lanes, Kind::Delete, self.columns.row_count())
    }

    fn last_read<L: LaneView>(&self, lanes: &L) -> Option<Op>
        ensures { result ≡ find (spec.sends_now self.now (L.told lanes.now)) (due.reads_of (known_in self.now)) }
    {
        self.last_op(lanes, Kind::ReadRow, self.columns.row_count())
    }

    fn first_import<L: LaneView>(&self, lanes: &L) -> Option<Op>
        ensures { result ≡ find (spec.sends_now self.now (L.told lanes.now)) (due.imports_read (known_in self.now)) }
    {
        let count = self.columns.run().base.pending.len() as u64;
        self.first_op(lanes, Kind::Import, count)
    }

    /// The first import, or else the first invoke.
    fn first_asked<L: LaneView>(&self, lanes: &L) -> Option<Op>
        ensures { result ≡ find (spec.sends_now self.now (L.told lanes.now)) (spec.asked_ops (known_in self.now)) }
    {
        match self.first_import(lanes) {
            Some(op) => Some(op),
            None => self.first_invoke(lanes),
        }
    }

    /// The last reading of a row, or else one of these.
    fn first_read<L: LaneView>(&self, lanes: &L) -> Option<Op>
        ensures { result ≡ find (spec.sends_now self.now (L.told lanes.now)) (spec.reading_ops (known_in self.now)) }
    {
        match self.last_read(lanes) {
            Some(op) => Some(op),
            None => self.first_asked(lanes),
        }
    }

    /// What a goal needs, or else one of these.
    fn first_of_makes<L: LaneView>(&self, lanes: &L) -> Option<Op>
        ensures { result ≡ find (spec.sends_now self.now (L.told lanes.now)) (spec.make_ops (known_in self.now)) }
    {
        match self.first_make(lanes) {
            Some(op) => Some(op),
            None => self.first_read(lanes),
        }
    }

    /// A check or a diff, or else one of these.
    fn first_of_goals<L: LaneView>(&self, lanes: &L) -> Option<Op>
        ensures { result ≡ find (spec.sends_now self.now (L.told lanes.now)) (spec.goal_ops (known_in self.now)) }
    {
        match self.first_check(lanes) {
            Some(op) => Some(op),
            None => self.first_of_makes(lanes),
        }
    }

    /// What makes a provider stand, or else one of these.
    fn first_of_providers<L: LaneView>(&self, lanes: &L) -> Option<Op>
        ensures { result ≡ find (spec.sends_now self.now (L.told lanes.now)) (spec.provider_ops (known_in self.now)) }
    {
        match self.first_configure() {
            Some(op) => Some(op),
            None => self.first_of_goals(lanes),
        }
    }

    /// The first operation that is to be sent, where no problem stands.
    pub fn first_send<L: LaneView>(&self, lanes: &L) -> Option<Op>
        ensures { result ≡ find (spec.sends_now self.now (L.told lanes.now)) (due.all_sends (known_in self.now)) }
    {
        match self.last_delete(lanes) {
            Some(op) => Some(op),
            None => self.first_of_providers(lanes),
        }
    }
}
