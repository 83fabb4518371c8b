ghost use Rattle.std.specs.Prelude.{◌≡◌, IfOk};

use pl_reference::ProviderRef;
use pl_urn::Urn;
use pl_value::{JsonFault, OutOfMemory, Text};
use thiserror::Error;

/// What a row of a state wants and does not find before it.
#[derive(Debug, Drop)]
pub enum Missing {
    /// An earlier row that is not to be deleted has the same URN.
    Twice(Urn),
    Parent(Urn),
    Provider(ProviderRef),
    Dependency(Urn),
    DeletedWith(Urn),
}

impl Missing {
    pub fn copy(&self) -> Result<Missing, OutOfMemory>
        ensures { IfOk result (λ made. made ≡ self.now) }
    {
        Ok(match self {
            Missing::Twice(urn) => Missing::Twice(urn.copy()?),
            Missing::Parent(urn) => Missing::Parent(urn.copy()?),
            Missing::Provider(reference) => Missing::Provider(reference.copy()?),
            Missing::Dependency(urn) => Missing::Dependency(urn.copy()?),
            Missing::DeletedWith(urn) => Missing::DeletedWith(urn.copy()?),
        })
    }
}

/// The first unsound row of a state, from 0, and its first missing thing.
#[derive(Debug, Drop)]
pub struct Unsound {
    pub at: u64,
    pub missing: Missing,
}

impl Unsound {
    pub fn copy(&self) -> Result<Unsound, OutOfMemory>
        ensures { IfOk result (λ made. made ≡ self.now) }
    {
        Ok(Unsound {
            at: self.at,
            missing: self.missing.copy()?,
        })
    }
}

/// Why a state is not known to be sound.
#[derive(Debug, Drop, Error)]
pub enum UnsoundOrMemory {
    #[error("a row refers to what does not stand before it")]
    Unsound(Unsound),
    #[error("out of memory")]
    OutOfMemory,
}

impl From<OutOfMemory> for UnsoundOrMemory {
    ghost use Rattle.std.specs.Prelude.{◌≡◌};
    ghost use Rattle.pl_state.specs.declared.fault.UnsoundOrMemory.TheVariants.{OutOfMemory};

    ghost from_gives = { λ _ fault. fault ≡ OutOfMemory };

    fn from(_error: OutOfMemory) -> UnsoundOrMemory {
        UnsoundOrMemory::OutOfMemory
    }
}

/// Why a registration's options make no goal.
#[derive(Debug, Drop, Error)]
pub enum OptionFault {
    /// The type, or else the name, makes no URN.
    #[error("a type or a name that makes no URN")]
    BadUrn(Text),
    #[error("no property path")]
    BadPath(Text),
    #[error("no version")]
    BadVersion(Text),
    /// A parent, a provider, a dependency, a resource that is deleted with, or an alias that is no reference.
    #[error("no reference")]
    BadReference(Text),
    #[error("a provider of a provider")]
    ProviderOfProvider,
}

impl OptionFault {
    pub fn copy(&self) -> Result<OptionFault, OutOfMemory>
        ensures { IfOk result (λ made. made ≡ self.now) }
    {
        Ok(match self {
            OptionFault::BadUrn(text) => OptionFault::BadUrn(text.copy()?),
            OptionFault::BadPath(text) => OptionFault::BadPath(text.copy()?),
            OptionFault::BadVersion(text) => OptionFault::BadVersion(text.copy()?),
            OptionFault::BadReference(text) => OptionFault::BadReference(text.copy()?),
            OptionFault::ProviderOfProvider => OptionFault::ProviderOfProvider,
        })
    }
}

/// Why bytes are no checkpoint. A text is the path of the faulty place: the keys from the outermost object
/// on, joined by `.`, with `[i]` for an element of a list.
#[derive(Debug, Drop, Error)]
pub enum BadCheckpoint {
    #[error("no JSON text")]
    NotJson,
    /// With the compact text of what stands for the version.
    #[error("no checkpoint of version 3")]
    NotVersion3(Text),
    #[error("a field is missing")]
    MissingField(Text),
    #[error("a field is of the wrong kind")]
    WrongKind(Text),
    #[error("no URN")]
    BadUrn(Text),
    #[error("no property value")]
    BadValue(JsonFault),
    /// With the number of resources, and of pending operations other than updates and deletes.
    #[error("too many resources")]
    TooMany(u64),
    #[error("a row refers to what does not stand before it")]
    Unsound(Unsound),
}

impl BadCheckpoint {
    pub fn copy(&self) -> Result<BadCheckpoint, OutOfMemory>
        ensures { IfOk result (λ made. made ≡ self.now) }
    {
        Ok(match self {
            BadCheckpoint::NotJson => BadCheckpoint::NotJson,
            BadCheckpoint::NotVersion3(text) => BadCheckpoint::NotVersion3(text.copy()?),
            BadCheckpoint::MissingField(path) => BadCheckpoint::MissingField(path.copy()?),
            BadCheckpoint::WrongKind(path) => BadCheckpoint::WrongKind(path.copy()?),
            BadCheckpoint::BadUrn(path) => BadCheckpoint::BadUrn(path.copy()?),
            BadCheckpoint::BadValue(fault) => BadCheckpoint::BadValue(fault.copy()?),
            BadCheckpoint::TooMany(number) => BadCheckpoint::TooMany(*number),
            BadCheckpoint::Unsound(fault) => BadCheckpoint::Unsound(fault.copy()?),
        })
    }
}
