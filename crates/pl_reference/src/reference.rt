ghost use Rattle.std.specs.Prelude.{◌≡◌, false, IfOk, is_none, IsErrOf, None, OnOk, Some, true};
ghost use Rattle.pl_urn.specs.Grammar.{told_fault};
ghost use Rattle.pl_reference.specs.Reference.{is_provider_urn, reference_in};

use pl_urn::{Urn, UrnFault, is_provider_type};
use pl_value::{OutOfMemory, Text};
use std::alloc::Global;
use thiserror::Error;

/// A provider resource that another one names: by its URN, and by its id, which tells it from its successors.
#[derive(Debug, Drop)]
pub struct ProviderRef {
    pub urn: Urn,
    pub id: Text,
}

impl ProviderRef {
    pub fn copy(&self) -> Result<ProviderRef, OutOfMemory>
        ensures { IfOk result (λ made. made ≡ self.now) }
    {
        Ok(ProviderRef {
            urn: self.urn.copy()?,
            id: self.id.copy()?,
        })
    }
}

/// Why a text gives no provider reference.
#[derive(Clone, Copy, Debug, PartialEq, Eq, Error)]
pub enum RefFault {
    /// The text holds no `::`, what stands before the last one is no URN of a provider, or nothing follows it.
    #[error("no provider reference")]
    NotAReference,
    #[error("out of memory")]
    OutOfMemory,
}

impl From<OutOfMemory> for RefFault {
    ghost use Rattle.std.specs.Prelude.{◌≡◌};
    ghost use Rattle.pl_reference.specs.declared.reference.RefFault.TheVariants.{OutOfMemory};

    ghost from_gives = { λ _ fault. fault ≡ OutOfMemory };

    fn from(_error: OutOfMemory) -> RefFault {
        RefFault::OutOfMemory
    }
}

/// Reads a provider reference, `<URN of a provider>::<id>`. The URN may hold `::`, the id may not.
pub fn read_ref(alloc: Global, text: &str) -> Result<ProviderRef, RefFault>
    ensures read { IfOk result (λ made. reference_in text.now ≡ Some (made.urn, made.id)) }
    ensures refused { IsErrOf result RefFault.NotAReference → reference_in text.now ≡ None }
{
    let Some((urn, id)) = text.rsplit_once("::") else {
        return Err(RefFault::NotAReference);
    };
    if id.is_empty() {
        return Err(RefFault::NotAReference);
    }
    let urn = provider_urn(alloc, urn)?;
    let id = Text::from_str(alloc, id)?;
    Ok(ProviderRef { urn, id })
}

/// Reads a URN whose own type is that of a provider.
fn provider_urn(alloc: Global, text: &str) -> Result<Urn, RefFault>
    ensures read { IfOk result (λ urn. urn ≡ text.now) }
    ensures provider { OnOk result (is_provider_urn text.now ≡ true) }
    ensures refused { IsErrOf result RefFault.NotAReference → is_provider_urn text.now ≡ false }
{
    match pl_urn::parse(alloc, text) {
        Ok(urn) => {
            if is_provider_type(urn.own_type()) {
                Ok(urn)
            } else {
                Err(RefFault::NotAReference)
            }
        }
        Err(fault) => Err(ref_fault(fault)),
    }
}

fn ref_fault(fault: UrnFault) -> RefFault
    ensures { result ≡ RefFault.NotAReference → is_none (told_fault fault) ≡ false }
{
    match fault {
        UrnFault::OutOfMemory => RefFault::OutOfMemory,
        _ => RefFault::NotAReference,
    }
}
