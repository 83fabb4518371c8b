ghost use Rattle.std.specs.Prelude.{◌≡◌, ◌⊎◌, [], IfOk};
ghost use Rattle.pl_json.specs.Faults as spec;

use pl_value::{JsonFault, OutOfMemory, Text};
use std::alloc::Global;

/// The path of a fault of the value itself; takes no memory.
pub fn no_path(alloc: Global) -> Text
    ensures { result ≡ [] }
{
    Text::from_string(String::new(alloc))
}

fn path_of(fault: &JsonFault) -> &str
    ensures { result.now ≡ spec.path_of fault.now }
{
    match fault {
        JsonFault::NotWhole(path)
        | JsonFault::SecretSealed(path)
        | JsonFault::BadSecret(path)
        | JsonFault::TooDeep(path) => path.as_str(),
        JsonFault::OutOfMemory => "",
    }
}

fn with_path(path: Text, fault: JsonFault) -> JsonFault
    ensures { result ≡ spec.with_path path fault }
{
    match fault {
        JsonFault::NotWhole(_) => JsonFault::NotWhole(path),
        JsonFault::SecretSealed(_) => JsonFault::SecretSealed(path),
        JsonFault::BadSecret(_) => JsonFault::BadSecret(path),
        JsonFault::TooDeep(_) => JsonFault::TooDeep(path),
        JsonFault::OutOfMemory => JsonFault::OutOfMemory,
    }
}

/// A fault of the element at this place, as one of its list.
pub fn in_element(alloc: Global, place: usize, fault: JsonFault) -> JsonFault
    ensures { (result ≡ JsonFault.OutOfMemory) ⊎ (result ≡ spec.behind (spec.element_step place) fault) }
{
    match format!(in alloc; "[{place}]{}", path_of(&fault)) {
        Ok(path) => with_path(Text::from_string(path), fault),
        Err(_) => JsonFault::OutOfMemory,
    }
}

/// A fault of what stands under this key, as one of its object.
pub fn in_field(alloc: Global, key: &str, fault: JsonFault) -> JsonFault
    ensures { (result ≡ JsonFault.OutOfMemory) ⊎ (result ≡ spec.behind (spec.key_step key.now) fault) }
{
    match format!(in alloc; ".{key}{}", path_of(&fault)) {
        Ok(path) => with_path(Text::from_string(path), fault),
        Err(_) => JsonFault::OutOfMemory,
    }
}

/// A fault of what stands in a secret, as one of the secret: nothing tells where in it.
pub fn in_secret(alloc: Global, fault: JsonFault) -> JsonFault
    ensures { result ≡ spec.hidden fault }
{
    with_path(no_path(alloc), fault)
}

/// A fault of the value at this path, with its whole path.
pub fn in_value(alloc: Global, base: &str, fault: JsonFault) -> JsonFault
    ensures { (result ≡ JsonFault.OutOfMemory) ⊎ (result ≡ spec.placed base.now fault) }
{
    match joined(alloc, base, path_of(&fault)) {
        Ok(path) => with_path(path, fault),
        Err(OutOfMemory) => JsonFault::OutOfMemory,
    }
}

fn joined(alloc: Global, base: &str, path: &str) -> Result<Text, OutOfMemory>
    ensures { IfOk result (λ made. made ≡ spec.joined base.now path.now) }
{
    if base.is_empty() {
        return Text::from_str(alloc, undotted(path));
    }
    Ok(Text::from_string(format!(in alloc; "{base}{path}")?))
}

fn undotted(path: &str) -> &str
    ensures { result.now ≡ spec.undotted path.now }
{
    path.strip_prefix('.').unwrap_or(path)
}
