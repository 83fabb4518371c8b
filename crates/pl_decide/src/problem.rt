ghost use Rattle.std.specs.Prelude.{◌≡◌, IfOk};

use pl_state::OptionFault;
use pl_urn::Urn;
use pl_value::{Bytes, OutOfMemory, Text};
use std::alloc::Global;

/// A child process of a run.
#[derive(Clone, Copy, Debug)]
pub enum Child {
    Host,
    /// A provider child, by its number from 0, in the order in which they were started.
    Lane(u64),
}

/// What went wrong in a run, as its history tells it.
#[derive(Debug, Drop)]
pub enum Problem {
    /// A registration's options make no goal.
    BadOption(OptionFault),
    /// A request refers to what no accepted goal is, by a provider reference to what no recorded goal with that id is.
    /// In a refresh, an import's provider reference that no row meets.
    UnknownReference(Text),
    /// An earlier goal has the same URN.
    DuplicateUrn(Urn),
    /// Outputs were told of a goal that is no component.
    OutputsOfCustom(Urn),
    /// A goal would only be read, and its old row is managed.
    ReadOverManaged(Urn),
    /// A component became custom, or the other way round.
    CustomChanged(Urn),
    /// The id that is to be imported is another than the old row's.
    ImportConflict(Urn),
    /// There is nothing to import.
    ImportMissing(Urn),
    /// A protected row would have to be deleted.
    Protected(Urn),
    /// A row's provider is not there.
    MissingProvider(Urn),
    /// The run's limits do not permit the step.
    NotPermitted(Urn),
    /// There is no pending creation to close.
    NoPendingCreate(Urn),
    /// The provider refused the inputs.
    CheckFailed(Urn),
    /// The provider answered by an error.
    ErrorReply(Text),
    /// The provider did its work in part.
    PartialReply(Urn),
    /// What was to be sent to a provider or answered to the host would have been longer than a frame may be.
    MessageTooLong,
    /// The host ended by an error of its own.
    HostError(Text),
    StoreFault,
    StartFault,
    PipeFault(Child),
    /// The child's output ended before its last word.
    ChildEnded(Child),
    /// What the child sent is no message that may stand there; for a bad length `bytes` are its four
    /// bytes.
    BadFrame { child: Child, bytes: Bytes },
    TooManyResources,
    NoMemory,
}

impl Problem {
    pub fn copy(&self, alloc: Global) -> Result<Problem, OutOfMemory>
        ensures { IfOk result (λ made. made ≡ self.now) }
    {
        Ok(match self {
            Problem::BadOption(fault) => Problem::BadOption(fault.copy()?),
            Problem::UnknownReference(text) => Problem::UnknownReference(text.copy()?),
            Problem::DuplicateUrn(urn) => Problem::DuplicateUrn(urn.copy()?),
            Problem::OutputsOfCustom(urn) => Problem::OutputsOfCustom(urn.copy()?),
            Problem::ReadOverManaged(urn) => Problem::ReadOverManaged(urn.copy()?),
            Problem::CustomChanged(urn) => Problem::CustomChanged(urn.copy()?),
            Problem::ImportConflict(urn) => Problem::ImportConflict(urn.copy()?),
            Problem::ImportMissing(urn) => Problem::ImportMissing(urn.copy()?),
            Problem::Protected(urn) => Problem::Protected(urn.copy()?),
            Problem::MissingProvider(urn) => Problem::MissingProvider(urn.copy()?),
            Problem::NotPermitted(urn) => Problem::NotPermitted(urn.copy()?),
            Problem::NoPendingCreate(urn) => Problem::NoPendingCreate(urn.copy()?),
            Problem::CheckFailed(urn) => Problem::CheckFailed(urn.copy()?),
            Problem::ErrorReply(text) => Problem::ErrorReply(text.copy()?),
            Problem::PartialReply(urn) => Problem::PartialReply(urn.copy()?),
            Problem::MessageTooLong => Problem::MessageTooLong,
            Problem::HostError(text) => Problem::HostError(text.copy()?),
            Problem::StoreFault => Problem::StoreFault,
            Problem::StartFault => Problem::StartFault,
            Problem::PipeFault(child) => Problem::PipeFault(*child),
            Problem::ChildEnded(child) => Problem::ChildEnded(*child),
            Problem::BadFrame { child, bytes } => Problem::BadFrame {
                child: *child,
                bytes: Bytes::from_slice(alloc, bytes.as_slice())?,
            },
            Problem::TooManyResources => Problem::TooManyResources,
            Problem::NoMemory => Problem::NoMemory,
        })
    }
}
