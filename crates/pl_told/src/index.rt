ghost use Rattle.std.specs.Prelude.{◌≡◌, ◌+◌, ◌<◌, ◌≤◌, ◌++◌, [], ◌∷◌, length, nat_eq, reverse, slice_get};
ghost use Rattle.std.specs.HashMap.{get, get_by_text, spare};
ghost use Rattle.std.specs.Option.{option_copied};
ghost use Rattle.std.specs.Vec.{vec_capacity};
ghost use Rattle.pl_lemmas.specs.Words.{option_list};
ghost use Rattle.pl_model.specs.Known as known;
ghost use Rattle.pl_told.specs.Index.{FindsGoals, FindsRequests};
ghost use Rattle.pl_told.specs.Paths.{HaveAllPaths};

use crate::change::Made;
use indexmap::IndexMap;
use pl_events::Request;
use pl_model::Heard;
use pl_state::Goal;

/// A request's number.
pub fn number_of(request: &Request) -> u64
    ensures { result ≡ known.number_of request.now }
{
    match request {
        Request::Register { n, .. } => *n,
        Request::Outputs { n, .. } => *n,
        Request::Invoke { n, .. } => *n,
    }
}

/// The number that stands under a URN.
pub fn number_in(numbers: &IndexMap<String, u64>, urn: &str) -> Option<u64>
    ensures { result ≡ get_by_text numbers.now urn.now }
{
    numbers.get(urn).copied()
}

/// The place that stands under a request's number.
pub fn place_in(places: &IndexMap<u64, u64>, n: u64) -> Option<u64>
    ensures { result ≡ get nat_eq places.now n }
{
    places.get(&n).copied()
}

/// The goal at a place.
pub fn goal_at(goals: &[Goal], place: u64) -> Option<&Goal>
    ensures { option_copied result ≡ slice_get goals.now place }
{
    goals.get(place as usize)
}

/// The told request at a place.
pub fn heard_at(heard: &[Heard], place: u64) -> Option<&Heard>
    ensures { option_copied result ≡ slice_get heard.now place }
{
    heard.get(place as usize)
}

/// Adds a goal at the end, to be found by its URN; takes no memory.
pub fn add_goal(goals: &mut Vec<Goal>, numbers: &mut IndexMap<String, u64>, made: Made)
    requires room { length goals.old.items < vec_capacity goals.old }
    requires numbers_room { 0 < spare numbers.old }
    requires found { FindsGoals numbers.old goals.old.items }
    requires paths { HaveAllPaths (reverse goals.old.items) }
    ensures added { goals.new.items ≡ goals.old.items ++ made ∷ [] }
    ensures found { FindsGoals numbers.new goals.new.items }
    ensures paths { HaveAllPaths (reverse goals.new.items) }
    ensures room { vec_capacity goals.old ≤ vec_capacity goals.new }
    ensures numbers_room { spare numbers.old ≤ spare numbers.new + 1 }
{
    let (key, goal) = made.into_parts();
    numbers.insert(key, goals.len() as u64).unwrap();
    goals.push(goal).unwrap();
}

/// Adds a goal at the end, if there is one; takes no memory.
pub fn add_if(goals: &mut Vec<Goal>, numbers: &mut IndexMap<String, u64>, made: Option<Made>)
    requires room { length goals.old.items < vec_capacity goals.old }
    requires numbers_room { 0 < spare numbers.old }
    requires found { FindsGoals numbers.old goals.old.items }
    requires paths { HaveAllPaths (reverse goals.old.items) }
    ensures added { goals.new.items ≡ goals.old.items ++ option_list made }
    ensures found { FindsGoals numbers.new goals.new.items }
    ensures paths { HaveAllPaths (reverse goals.new.items) }
    ensures room { vec_capacity goals.old ≤ vec_capacity goals.new }
    ensures numbers_room { spare numbers.old ≤ spare numbers.new + 1 }
{
    match made {
        None => {}
        Some(made) => add_goal(goals, numbers, made),
    }
}

/// Adds a told request at the end, to be found by its number, which is given; takes no memory.
pub fn add_heard(heard: &mut Vec<Heard>, places: &mut IndexMap<u64, u64>, one: Heard) -> u64
    requires room { length heard.old.items < vec_capacity heard.old }
    requires places_room { 0 < spare places.old }
    requires found { FindsRequests places.old heard.old.items }
    ensures number { result ≡ known.number_of one.request }
    ensures added { heard.new.items ≡ heard.old.items ++ one ∷ [] }
    ensures found { FindsRequests places.new heard.new.items }
    ensures room { vec_capacity heard.old ≤ vec_capacity heard.new }
    ensures places_room { spare places.old ≤ spare places.new + 1 }
{
    let n = number_of(&one.request);
    places.insert(n, heard.len() as u64).unwrap();
    heard.push(one).unwrap();
    n
}
