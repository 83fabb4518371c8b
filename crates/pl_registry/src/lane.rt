ghost use Rattle.std.specs.Prelude.{◌≡◌, count_by, position};
ghost use Rattle.pl_registry.specs.Lanes as spec;

use pl_events::Source;

/// A provider child: whose it is, whether it is configured, at work, and lost.
#[derive(Clone, Copy, Debug)]
pub struct Lane {
    pub source: Source,
    pub configured: bool,
    pub out: bool,
    pub lost: bool,
}

fn same_source(first: Source, second: Source) -> bool
    ensures { result ≡ spec.same_source first second }
{
    match (first, second) {
        (Source::Goal(first), Source::Goal(second)) => first == second,
        (Source::Row(first), Source::Row(second)) => first == second,
        _ => false,
    }
}

impl Lane {
    /// A child that was just started.
    pub fn new(source: Source) -> Lane
        ensures { result ≡ spec.new_lane source }
    {
        Lane {
            source,
            configured: false,
            out: false,
            lost: false,
        }
    }

    fn is_from(&self, wanted: Source) -> bool
        ensures { result ≡ spec.is_from wanted self.now }
    {
        same_source(self.source, wanted)
    }

    fn is_free(&self) -> bool
        ensures { result ≡ spec.can_work self.now }
    {
        self.configured && !self.out && !self.lost
    }
}

/// The place of the first free child of a source.
pub fn free_place(lanes: &[Lane], wanted: Source) -> Option<usize>
    ensures { result ≡ position (spec.is_free_from wanted) lanes.now }
{
    lanes
        .iter()
        .position(|lane| lane.is_from(wanted) && lane.is_free())
}

/// How many children a source has, lost ones too.
pub fn count_from(lanes: &[Lane], wanted: Source) -> usize
    ensures { result ≡ count_by (spec.is_from wanted) lanes.now }
{
    lanes.iter().filter(|lane| lane.is_from(wanted)).count()
}
