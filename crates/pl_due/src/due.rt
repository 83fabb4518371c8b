ghost use Rattle.std.specs.Prelude.{◌≡◌, ◌&&◌, find, if◌then◌else◌, List, map, None, option_and_then};
ghost use Rattle.std.specs.List.{list_any};
ghost use Rattle.pl_events.specs.declared.event.Event.{Event};
ghost use Rattle.pl_model.specs.Choice.{TellsLanes, chosen};
ghost use Rattle.pl_model.specs.Due as due;
ghost use Rattle.pl_model.specs.Known.{has_problem};
ghost use Rattle.pl_due.specs.Chosen.{choice_now, choice_told};
ghost use Rattle.pl_due.specs.Now as spec;
ghost use Rattle.pl_due.specs.Seen.{Tells, known_after, known_in};

use crate::seen::Seen;
use crate::sends::has_lane;
use pl_events::{LaneView, Op, Source, Subject};
use pl_lanes::{checked_there, source_of_op};
use pl_model::Work;
use pl_ready::{is_keep_ready, is_post_due};

/// What is to be done next.
#[derive(Clone, Copy, Debug)]
pub enum Due {
    /// Nothing now.
    Nothing,
    /// To stop, since there would be too many resources.
    TooMany,
    /// To answer the request of this number.
    Post(u64),
    /// To keep the goal of this number.
    Keep(u64),
    /// To let a pending operation go.
    Clear(u64),
    /// To drop a row.
    Drop(u64),
    /// To send an operation to a lane that there is, or to a new one.
    Call { op: Op, lane: Option<u64> },
}

fn lane_of<L: LaneView>(lanes: &L, provider: Option<Source>) -> Option<u64>
    ensures { result ≡ option_and_then (L.told lanes.now).free provider }
{
    match provider {
        None => None,
        Some(provider) => lanes.lane_free(provider),
    }
}

impl Seen<'_> {
    fn sent<L: LaneView>(&self, lanes: &L) -> Option<Work>
        ensures { result ≡ find (spec.due_now self.now (L.told lanes.now)) (map Work.Send (due.all_sends (known_in self.now))) }
    {
        match self.first_send(lanes) {
            None => None,
            Some(op) => Some(Work::Send(op)),
        }
    }

    fn first_removal<L: LaneView>(&self, lanes: &L) -> Option<Work>
        ensures { result ≡ find (spec.due_now self.now (L.told lanes.now)) (spec.removals_of (known_in self.now)) }
    {
        match self.last_drop() {
            Some(row) => Some(Work::Drop(row)),
            None => self.sent(lanes),
        }
    }

    fn first_cleared<L: LaneView>(&self, lanes: &L) -> Option<Work>
        ensures { result ≡ find (spec.due_now self.now (L.told lanes.now)) (spec.clears_of (known_in self.now)) }
    {
        match self.first_clear() {
            Some(at) => Some(Work::Clear(at)),
            None => self.first_removal(lanes),
        }
    }

    /// The first work that is due where no problem stands, posts aside.
    fn first_other<L: LaneView>(&self, lanes: &L) -> Option<Work>
        ensures { result ≡ find (spec.due_now self.now (L.told lanes.now)) (spec.others_of (known_in self.now)) }
    {
        match self.first_keep() {
            Some(number) => Some(Work::Keep(number)),
            None => self.first_cleared(lanes),
        }
    }

    fn other_taken<L: LaneView>(&self, lanes: &L) -> Option<Work>
        ensures { result ≡ (if has_problem (known_in self.now) then None
            else find (spec.due_now self.now (L.told lanes.now)) (spec.others_of (known_in self.now))) }
    {
        if self.columns.has_problem() {
            None
        } else {
            self.first_other(lanes)
        }
    }

    fn post_taken<L: LaneView>(&self, lanes: &L) -> Option<u64>
        ensures { result ≡ (if (L.told lanes.now).half_home
            then find (due.is_post_due (known_in self.now)) self.now.requests.now else None) }
    {
        if lanes.half_home() {
            self.first_post()
        } else {
            None
        }
    }

    /// The first work that is due and can be taken up.
    fn first_taken<L: LaneView>(&self, lanes: &L) -> Option<Work>
        ensures { result ≡ spec.taken_now self.now (L.told lanes.now) }
    {
        match self.post_taken(lanes) {
            Some(n) => Some(Work::Post(n)),
            None => self.other_taken(lanes),
        }
    }

    /// The lane there is that an operation goes to.
    fn lane_there<L: LaneView>(&self, lanes: &L, op: Op) -> Option<u64>
        ensures { result ≡ spec.lane_now self.now (L.told lanes.now) op }
    {
        match op {
            Op::CheckConfig(_) => None,
            Op::Configure(provider) => checked_there(self.columns, provider),
            _ => lane_of(lanes, source_of_op(self.columns, op)),
        }
    }

    fn due_of<L: LaneView>(&self, lanes: &L, work: Work) -> Due
        ensures { choice_told result ≡ choice_now self.now (L.told lanes.now) work }
    {
        match work {
            Work::Post(n) => Due::Post(n),
            Work::Keep(number) => Due::Keep(number),
            Work::Clear(at) => Due::Clear(at),
            Work::Drop(row) => Due::Drop(row),
            Work::Send(op) => Due::Call {
                op,
                lane: self.lane_there(lanes, op),
            },
        }
    }

    fn passes_lane<L: LaneView>(&self, lanes: &L, op: Op) -> bool
        ensures { result ≡ spec.passes_lane self.now (L.told lanes.now) op }
    {
        self.is_wanted_op(op)
            && has_lane(lanes, source_of_op(self.columns, op))
            && self.passes_limit(Work::Send(op))
    }

    fn is_keep_over(&self, number: u64) -> bool
        ensures { result ≡ (due.is_keep_ready (known_in self.now) number && spec.passes_now self.now (Work.Keep number)) }
    {
        is_keep_ready(self.columns, number) && self.passes_limit(Work::Keep(number))
    }

    fn is_goal_over<L: LaneView>(&self, lanes: &L, number: u64) -> bool
        ensures { result ≡ spec.goal_over self.now (L.told lanes.now) number }
    {
        self.is_keep_over(number)
            || self.passes_lane(lanes, Op::Create(Subject::Goal(number)))
            || self.passes_lane(lanes, Op::Read(Subject::Goal(number)))
    }

    fn any_goal_over<L: LaneView>(&self, lanes: &L) -> bool
        ensures { result ≡ list_any (spec.goal_over self.now (L.told lanes.now)) (due.goal_numbers (known_in self.now)) }
    {
        (0..self.columns.requests.len()).any(|number| self.is_goal_over(lanes, number))
    }

    fn any_post(&self) -> bool
        ensures { result ≡ list_any (due.is_post_due (known_in self.now)) self.now.requests.now }
    {
        self.requests.iter().any(|n| is_post_due(self.columns, *n))
    }

    /// Whether work is over the limit and nothing else is due or open, where no work is taken up.
    fn is_too_many<L: LaneView>(&self, lanes: &L) -> bool
        ensures { result ≡ spec.too_many_now self.now (L.told lanes.now) }
    {
        !self.any_post()
            && !self.columns.has_open()
            && !self.columns.has_problem()
            && self.any_goal_over(lanes)
    }

    /// What is to be done next. Takes no memory.
    pub fn next_due<L: LaneView>(&self, lanes: &L) -> Due
        ensures { (history : List Event) → Tells self.now history → TellsLanes (L.told lanes.now) (known_after self.now history)
            → choice_told result ≡ chosen (L.told lanes.now).half_home (known_after self.now history) }
    {
        match self.first_taken(lanes) {
            Some(work) => self.due_of(lanes, work),
            None => {
                if self.is_too_many(lanes) {
                    Due::TooMany
                } else {
                    Due::Nothing
                }
            }
        }
    }
}
