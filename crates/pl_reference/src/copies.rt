ghost use Rattle.std.specs.Prelude.{◌≡◌, IfOk};

use crate::reference::ProviderRef;
use pl_urn::Urn;
use pl_value::{OutOfMemory, Text};

/// A text that may be missing, in memory of its own.
pub fn copy_text(text: &Option<Text>) -> Result<Option<Text>, OutOfMemory>
    ensures { IfOk result (λ made. made ≡ text.now) }
{
    match text {
        None => Ok(None),
        Some(text) => {
            let copied = text.copy()?;
            Ok(Some(copied))
        }
    }
}

/// A URN that may be missing, in memory of its own.
pub fn copy_urn(urn: &Option<Urn>) -> Result<Option<Urn>, OutOfMemory>
    ensures { IfOk result (λ made. made ≡ urn.now) }
{
    match urn {
        None => Ok(None),
        Some(urn) => {
            let copied = urn.copy()?;
            Ok(Some(copied))
        }
    }
}

/// A provider reference that may be missing, in memory of its own.
pub fn copy_reference(reference: &Option<ProviderRef>) -> Result<Option<ProviderRef>, OutOfMemory>
    ensures { IfOk result (λ made. made ≡ reference.now) }
{
    match reference {
        None => Ok(None),
        Some(reference) => {
            let copied = reference.copy()?;
            Ok(Some(copied))
        }
    }
}
