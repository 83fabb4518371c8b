ghost use Rattle.std.specs.Prelude.{◌≡◌, ◌+◌, ◌<◌, [], drop, IfOk, IsTrue, length, option_map, slice_get, Some, unwrap_or};
ghost use Rattle.pl_value.specs.Changed.{first_of};
ghost use Rattle.pl_value.specs.Keys.{are_rising, keys_of};
ghost use Rattle.pl_refresh.specs.Planned.{planned_outputs};

use pl_value::{Fields, OutOfMemory, Text, Value};
use std::alloc::Global;
use std::cmp::Ordering;

/// The outputs that a preview plans: the old ones with the checked inputs put over them, or the checked inputs alone
/// where there are no old ones. Its time grows with the number of fields.
pub fn planned_outputs(
    alloc: Global,
    old: Option<&Fields>,
    checked: &Fields,
) -> Result<Fields, OutOfMemory>
    ensures planned { IfOk result (λ made. made ≡ planned_outputs (unwrap_or (option_map (λ old. old.now) old.entry) []) checked.now) }
{
    let none = Fields::new(alloc);
    let old = old.unwrap_or(&none);
    let made = merged(alloc, old.as_slice(), checked.as_slice())?;
    Ok(Fields::from_vec(made))
}

fn merged(
    alloc: Global,
    old: &[(Text, Value)],
    checked: &[(Text, Value)],
) -> Result<Vec<(Text, Value)>, OutOfMemory>
    requires { IsTrue (are_rising (keys_of checked.now)) }
    ensures { IfOk result (λ made. made.items ≡ planned_outputs old.now checked.now) }
{
    let mut before = old;
    let mut over = checked;
    let mut made = Vec::new(alloc);
    while before.len() != 0 || over.len() != 0 {
        match least_of(before, over) {
            Ordering::Less => {
                made.push(copy_first(alloc, before)?)?;
                before = rest(before);
            }
            Ordering::Greater => {
                made.push(copy_first(alloc, over)?)?;
                over = rest(over);
            }
            Ordering::Equal => {
                made.push(copy_first(alloc, over)?)?;
                before = rest(before);
                over = rest(over);
            }
        }
    }
    Ok(made)
}

/// Which of the two has the least key.
fn least_of(old: &[(Text, Value)], new: &[(Text, Value)]) -> Ordering
    requires { 0 < length old.now + length new.now }
    ensures { result ≡ first_of old.now new.now }
{
    if new.len() == 0 {
        return Ordering::Less;
    }
    if old.len() == 0 {
        return Ordering::Greater;
    }
    old[0].0.as_str().cmp(new[0].0.as_str())
}

fn rest(fields: &[(Text, Value)]) -> &[(Text, Value)]
    requires { 0 < length fields.now }
    ensures { result.now ≡ drop 1 fields.now }
{
    &fields[1..]
}

fn copy_first(alloc: Global, fields: &[(Text, Value)]) -> Result<(Text, Value), OutOfMemory>
    requires { 0 < length fields.now }
    ensures { IfOk result (λ made. slice_get fields.now 0 ≡ Some made) }
{
    let (key, value) = &fields[0];
    Ok((key.copy()?, value.copy(alloc)?))
}
