ghost use Rattle.std.specs.Prelude.{◌≡◌, ◌+◌, ◌<◌, ◌≤◌, ◌^◌, ◌&&◌, ℕ, count_by, is_some, length, position, slice_get, true};
ghost use Rattle.std.specs.List.{list_any};
ghost use Rattle.std.specs.Vec.{vec_capacity};
ghost use Rattle.pl_errands.specs.Lanes as spec;
ghost use Rattle.pl_lemmas.specs.Words.{some_passes};

use crate::row::Standing;
use crate::same::{same_source, source_begun};
use pl_events::{Op, Source};

/// A provider child: whose it is, how many open operations it has, whether it is configured, and lost.
#[derive(Clone, Copy, Debug)]
pub struct Lane {
    pub source: Option<Source>,
    pub out: u64,
    pub configured: bool,
    pub lost: bool,
}

impl Lane {
    /// A child by the first operation that was sent to it.
    pub fn new(op: Op) -> Lane
        ensures { result ≡ spec.new_lane op }
    {
        Lane {
            source: source_begun(op),
            out: 1,
            configured: false,
            lost: false,
        }
    }

    fn is_from(&self, wanted: Source) -> bool
        ensures { result ≡ spec.is_from wanted self.now }
    {
        match self.source {
            None => false,
            Some(own) => same_source(own, wanted),
        }
    }

    /// Whether an operation of it is open.
    pub fn is_out(&self) -> bool
        ensures { result ≡ spec.is_out_lane self.now }
    {
        self.out > 0
    }

    /// Whether work can be sent to it.
    pub fn is_free(&self) -> bool
        ensures { result ≡ spec.is_free_lane self.now }
    {
        self.configured && !self.is_out() && !self.lost
    }

    fn is_coming(&self) -> bool
        ensures { result ≡ spec.is_coming_lane self.now }
    {
        !self.configured && !self.lost
    }
}

/// One operation more for a lane that there is, or for the next one.
pub fn add_to_lane(lanes: &mut Vec<Lane>, lane: u64, op: Op)
    requires within { lane ≤ length lanes.old.items }
    requires room { length lanes.old.items < vec_capacity lanes.old }
    requires few { (k : ℕ) → spec.out_of (slice_get lanes.old.items k) + 1 < 2 ^ 64 }
    ensures { lanes.new.items ≡ spec.with_one_more lane op lanes.old.items }
{
    let at = lane as usize;
    if at < lanes.len() {
        lanes[at].out += 1;
    } else {
        lanes.push(Lane::new(op)).unwrap();
    }
}

/// One operation less for a lane, by what became of it.
pub fn take_from_lane(lanes: &mut Vec<Lane>, lane: u64, standing: Standing)
    requires { some_passes spec.is_out_lane (slice_get lanes.old.items lane) ≡ true }
    ensures items { lanes.new.items ≡ spec.changed_at (spec.closed_by standing) lane lanes.old.items }
    ensures room { vec_capacity lanes.new ≡ vec_capacity lanes.old }
{
    let child = &mut lanes[lane as usize];
    child.out -= 1;
    match standing {
        Standing::Configured => child.configured = true,
        Standing::Lost => child.lost = true,
        _ => {}
    }
}

/// One operation of a lane is open again; whether the lane is configured is told anew.
pub fn give_to_lane(lanes: &mut Vec<Lane>, lane: u64, configured: bool)
    requires there { is_some (slice_get lanes.old.items lane) ≡ true }
    requires few { spec.out_of (slice_get lanes.old.items lane) + 1 < 2 ^ 64 }
    ensures items { lanes.new.items ≡ spec.changed_at (spec.open_again configured) lane lanes.old.items }
    ensures room { vec_capacity lanes.new ≡ vec_capacity lanes.old }
{
    let child = &mut lanes[lane as usize];
    child.out += 1;
    child.configured = configured;
}

/// The lane of a number.
pub fn lane_at(lanes: &[Lane], lane: u64) -> Option<Lane>
    ensures { result ≡ slice_get lanes.now lane }
{
    lanes.get(lane as usize).copied()
}

/// The place of the first lane of a provider that work can be sent to.
pub fn free_place(lanes: &[Lane], wanted: Source) -> Option<usize>
    ensures { result ≡ position (λ lane. spec.is_from wanted lane && spec.is_free_lane lane) lanes.now }
{
    lanes
        .iter()
        .position(|lane| lane.is_from(wanted) && lane.is_free())
}

/// How many lanes a provider has, lost ones too.
pub fn count_from(lanes: &[Lane], wanted: Source) -> usize
    ensures { result ≡ count_by (spec.is_from wanted) lanes.now }
{
    lanes.iter().filter(|lane| lane.is_from(wanted)).count()
}

/// Whether a lane of the provider is configured.
pub fn any_configured(lanes: &[Lane], wanted: Source) -> bool
    ensures { result ≡ list_any (λ lane. spec.is_from wanted lane && lane.configured) lanes.now }
{
    lanes
        .iter()
        .any(|lane| lane.is_from(wanted) && lane.configured)
}

/// Whether a lane of the provider is neither configured nor lost.
pub fn any_coming(lanes: &[Lane], wanted: Source) -> bool
    ensures { result ≡ list_any (λ lane. spec.is_from wanted lane && spec.is_coming_lane lane) lanes.now }
{
    lanes
        .iter()
        .any(|lane| lane.is_from(wanted) && lane.is_coming())
}
