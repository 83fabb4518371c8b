ghost use Rattle.std.specs.Prelude.{◌≡◌, ◌↔◌, ◌<◌, ◌+◌, ℕ, List, Contains, IfOk, IsTrue, length};
ghost use Rattle.pl_value.specs.Changed.{IsChanged, first_of};
ghost use Rattle.pl_value.specs.Keys.{are_rising};

use crate::fields::Fields;
use crate::sound::rest;
use crate::value::Value;
use pl_text::{OutOfMemory, Text, Texts};
use std::alloc::Global;
use std::cmp::Ordering;

/// The keys that are in one of the two only or whose values are not the same, in their order.
pub fn changed_keys(alloc: Global, old: &Fields, new: &Fields) -> Result<Texts, OutOfMemory>
    ensures rising { IfOk result (λ keys. IsTrue (are_rising keys)) }
    ensures changed { IfOk result (λ keys. (key : List ℕ) → Contains keys key ↔ IsChanged old.now new.now key) }
{
    let mut before = old.as_slice();
    let mut after = new.as_slice();
    let mut keys = Texts::new(alloc);
    while before.len() != 0 || after.len() != 0 {
        match first_of(before, after) {
            Ordering::Less => {
                keys.push(before[0].0.copy()?)?;
                before = rest(before);
            }
            Ordering::Greater => {
                keys.push(after[0].0.copy()?)?;
                after = rest(after);
            }
            Ordering::Equal => {
                if !before[0].1.same_as(&after[0].1) {
                    keys.push(before[0].0.copy()?)?;
                }
                before = rest(before);
                after = rest(after);
            }
        }
    }
    Ok(keys)
}

/// Which of the two has the least key: the old for `Less`, the new for `Greater`, both for `Equal`.
fn first_of(old: &[(Text, Value)], new: &[(Text, Value)]) -> Ordering
    requires { 0 < length old.now + length new.now }
    ensures { result ≡ first_of old.now new.now }
{
    if new.len() == 0 {
        return Ordering::Less;
    }
    if old.len() == 0 {
        return Ordering::Greater;
    }
    old[0].0.as_str().cmp(new[0].0.as_str())
}
