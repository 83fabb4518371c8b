ghost use Rattle.std.specs.Prelude.{◌≡◌, ◌+◌, ◌<◌, ◌≤◌, ◌∷◌, drop, false, nat_eq};
ghost use Rattle.std.specs.HashMap as map;
ghost use Rattle.std.specs.HashSet as set;
ghost use Rattle.pl_lemmas.specs.Words.{first_in, has_number, numbered, some_passes};
ghost use Rattle.pl_records.specs.Columns.{fresh_in, was_kept};
ghost use Rattle.pl_records.specs.Index.{kept_in, numbers_in};

use indexmap::{IndexMap, IndexSet};

/// Numbers in the order in which they were added.
pub type Numbers = IndexSet<u64>;

/// The goals that were kept without an operation in their order, each with the number that its id is made of.
pub type Keeps = IndexMap<u64, Option<u128>>;

pub fn has(numbers: &Numbers, number: u64) -> bool
    ensures { result ≡ has_number (numbers_in numbers.now) number }
{
    numbers.contains(&number)
}

/// The number that so many were added before.
pub fn number_at(numbers: &Numbers, place: u64) -> Option<u64>
    ensures { result ≡ numbered (numbers_in numbers.now) place }
{
    numbers.get_index(place as usize).copied()
}

pub fn newest(numbers: &Numbers) -> Option<u64>
    ensures { result ≡ first_in (numbers_in numbers.now) }
{
    numbers.last().copied()
}

/// Adds a number that is not there yet; takes no memory.
pub fn add(numbers: &mut Numbers, number: u64)
    requires room { 0 < set.spare numbers.old }
    requires absent { has_number (numbers_in numbers.old) number ≡ false }
    ensures added { numbers_in numbers.new ≡ number ∷ numbers_in numbers.old }
    ensures room { set.spare numbers.old ≤ set.spare numbers.new + 1 }
{
    numbers.insert(number).unwrap();
}

/// Takes the newest number out, if there is one.
pub fn take_newest(numbers: &mut Numbers)
    ensures taken { numbers_in numbers.new ≡ drop 1 (numbers_in numbers.old) }
    ensures room { set.spare numbers.old ≤ set.spare numbers.new }
{
    let _newest = numbers.pop();
}

/// The number that the id of a kept goal is made of, if it has one.
pub fn fresh(keeps: &Keeps, goal: u64) -> Option<u128>
    requires { map.IsUnique nat_eq keeps.now }
    ensures { result ≡ fresh_in (kept_in keeps.now) goal }
{
    match keeps.get(&goal) {
        None => None,
        Some(fresh) => *fresh,
    }
}

/// Adds a goal that was not kept yet; takes no memory.
pub fn add_kept(keeps: &mut Keeps, goal: u64, fresh: Option<u128>)
    requires room { 0 < map.spare keeps.old }
    requires absent { was_kept (kept_in keeps.old) goal ≡ false }
    ensures added { kept_in keeps.new ≡ (goal, fresh) ∷ kept_in keeps.old }
    ensures room { map.spare keeps.old ≤ map.spare keeps.new + 1 }
    ensures once { map.IsUnique nat_eq keeps.new }
{
    keeps.insert(goal, fresh).unwrap();
}

/// Takes the goal out that was kept last, if there is one.
pub fn take_kept(keeps: &mut Keeps)
    ensures taken { kept_in keeps.new ≡ drop 1 (kept_in keeps.old) }
    ensures gone { some_passes (λ one. was_kept (kept_in keeps.new) one.0) (first_in (kept_in keeps.old)) ≡ false }
    ensures room { map.spare keeps.old ≤ map.spare keeps.new }
    ensures once { map.IsUnique nat_eq keeps.new }
{
    let _newest = keeps.pop();
}
