ghost use Rattle.std.specs.Prelude.{◌≡◌, ◌<◌, if◌then◌else◌, is_some, None, option_and_then, option_map, Some};
ghost use Rattle.std.specs.HashMap.{spare};
ghost use Rattle.std.specs.Option.{option_or};
ghost use Rattle.pl_errands.specs.Index.{kept_of, only_before as before};
ghost use Rattle.pl_events.specs.declared.operation.Op.{Op as Operation};
ghost use Rattle.pl_model.specs.Tickets.{same_op as is_same_op};

use crate::key::Key;
use pl_events::Op;
use std::collections::HashMap;

/// Of each operation that was begun, the place of the first reply to it, once one came.
pub type Index = HashMap<Key, Option<usize>>;

/// Keeps an operation that is begun; takes no memory.
pub fn keep_begun(index: &mut Index, op: Op)
    requires { 0 < spare index.old }
    ensures { (other : Operation) → kept_of index.new other
        ≡ option_or (kept_of index.old other) (if is_same_op op other then Some None else None) }
{
    let key = Key { op };
    if !index.contains_key(&key) {
        let kept: Result<_, _> = index.insert(key, None);
        kept.unwrap();
    }
}

/// Keeps the place of a reply to an operation, where none is kept yet; takes no memory.
pub fn keep_reply(index: &mut Index, op: Op, place: usize)
    ensures kept { (other : Operation) → kept_of index.new other
        ≡ option_map (λ first. if is_same_op op other then option_or first (Some place) else first) (kept_of index.old other) }
    ensures room { spare index.new ≡ spare index.old }
{
    if let Some(first) = index.get_mut(&Key { op }) {
        if first.is_none() {
            *first = Some(place);
        }
    }
}

/// Forgets the place of a reply to an operation, if it is the first one; takes no memory.
pub fn drop_reply(index: &mut Index, op: Op, place: usize)
    ensures kept { (other : Operation) → kept_of index.new other
        ≡ option_map (λ first. if is_same_op op other then before place first else first) (kept_of index.old other) }
    ensures room { spare index.new ≡ spare index.old }
{
    if let Some(first) = index.get_mut(&Key { op }) {
        *first = only_before(place, *first);
    }
}

/// The first place, if it lies before another one.
fn only_before(place: usize, first: Option<usize>) -> Option<usize>
    ensures { result ≡ before place first }
{
    match first {
        Some(at) if at < place => Some(at),
        _ => None,
    }
}

/// Whether an operation was begun.
pub fn has_op(index: &Index, op: Op) -> bool
    ensures { result ≡ is_some (kept_of index.now op) }
{
    index.contains_key(&Key { op })
}

/// The place of the first reply to an operation, if one came.
pub fn first_place(index: &Index, op: Op) -> Option<usize>
    ensures { result ≡ option_and_then (λ first. first) (kept_of index.now op) }
{
    match index.get(&Key { op }) {
        None => None,
        Some(first) => *first,
    }
}
