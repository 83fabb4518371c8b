ghost use Rattle.std.specs.Prelude.{◌≡◌, IfOk};
ghost use Rattle.pl_checkpoint_text.specs.ReadField.{element_path, field_path};

use pl_value::{OutOfMemory, Text};
use std::alloc::Global;

/// The path of the field with this key in the object at the path. The outermost object has the empty path.
pub fn field_path(alloc: Global, path: &str, key: &str) -> Result<Text, OutOfMemory>
    ensures { IfOk result (λ made. made ≡ field_path path.now key.now) }
{
    if path.is_empty() {
        return Text::from_str(alloc, key);
    }
    Ok(Text::from_string(format!(in alloc; "{path}.{key}")?))
}

/// The path of the element at this place of the list at the path.
pub fn element_path(alloc: Global, path: &str, place: usize) -> Result<Text, OutOfMemory>
    ensures { IfOk result (λ made. made ≡ element_path path.now place) }
{
    Ok(Text::from_string(format!(in alloc; "{path}[{place}]")?))
}
