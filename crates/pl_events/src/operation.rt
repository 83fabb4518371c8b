ghost use Rattle.std.specs.Prelude.{◌≡◌, IfOk};
ghost use Rattle.pl_events.specs.Lanes.{LanesTold};

use pl_urn::Urn;
use pl_value::{Fields, OutOfMemory, Text};
use std::alloc::Global;

/// What an operation is about: a goal, a row of the state at the start, or a pending operation of it, each by
/// its number from 0.
#[derive(Clone, Copy, Debug, PartialEq, Eq)]
pub enum Subject {
    Goal(u64),
    Row(u64),
    Pending(u64),
}

/// The provider whose children do an operation: a goal's, or that of a row of the state at the start.
#[derive(Clone, Copy, Debug, PartialEq, Eq)]
pub enum Source {
    Goal(u64),
    Row(u64),
}

/// An operation that a provider child is to do.
#[derive(Clone, Copy, Debug, PartialEq, Eq)]
pub enum Op {
    CheckConfig(Subject),
    Configure(Source),
    Check(Subject),
    Diff(Subject),
    Create(Subject),
    Update(Subject),
    Delete(Subject),
    Read(Subject),
    /// By the number of the request that asked for it.
    Invoke(u64),
}

/// The calls that a provider answers.
#[derive(Clone, Copy, Debug, PartialEq, Eq)]
pub enum Call {
    CheckConfig,
    Configure,
    Check,
    Diff,
    Create,
    Update,
    Delete,
    Read,
    Invoke,
}

/// What a provider is asked.
#[derive(Debug, Drop)]
pub enum Ask {
    CheckConfig {
        urn: Urn,
        inputs: Fields,
        old: Option<Fields>,
    },
    Configure {
        inputs: Fields,
    },
    Check {
        urn: Urn,
        inputs: Fields,
        old: Option<Fields>,
    },
    Diff {
        urn: Urn,
        id: Text,
        old_inputs: Fields,
        old_outputs: Fields,
        inputs: Fields,
    },
    Create {
        urn: Urn,
        inputs: Fields,
    },
    Update {
        urn: Urn,
        id: Text,
        old_inputs: Fields,
        old_outputs: Fields,
        inputs: Fields,
    },
    Delete {
        urn: Urn,
        id: Text,
        inputs: Fields,
        outputs: Fields,
    },
    Read {
        urn: Urn,
        id: Text,
        inputs: Fields,
        outputs: Fields,
    },
    Invoke {
        token: Text,
        args: Fields,
    },
}

impl Ask {
    pub fn copy(&self, alloc: Global) -> Result<Ask, OutOfMemory>
        ensures { IfOk result (λ made. made ≡ self.now) }
    {
        match self {
            Ask::CheckConfig { urn, inputs, old } => copy_check_config(urn, inputs, old, alloc),
            Ask::Configure { inputs } => copy_configure(inputs, alloc),
            Ask::Check { urn, inputs, old } => copy_check(urn, inputs, old, alloc),
            Ask::Diff {
                urn,
                id,
                old_inputs,
                old_outputs,
                inputs,
            } => copy_diff(urn, id, old_inputs, old_outputs, inputs, alloc),
            Ask::Create { urn, inputs } => copy_create(urn, inputs, alloc),
            Ask::Update {
                urn,
                id,
                old_inputs,
                old_outputs,
                inputs,
            } => copy_update(urn, id, old_inputs, old_outputs, inputs, alloc),
            Ask::Delete {
                urn,
                id,
                inputs,
                outputs,
            } => copy_delete(urn, id, inputs, outputs, alloc),
            Ask::Read {
                urn,
                id,
                inputs,
                outputs,
            } => copy_read(urn, id, inputs, outputs, alloc),
            Ask::Invoke { token, args } => copy_invoke(token, args, alloc),
        }
    }
}

/// The places of the provider children, as the choice of due work sees them.
pub trait LaneView {
    // what is told of the lanes and of the host's writing half
    ghost told: { Self → LanesTold };

    /// The least configured child of this source that is neither at work nor lost.
    fn lane_free(&self, source: Source) -> Option<u64>
        ensures { result ≡ (told self.now).free source };

    /// Whether one more child of this source may be started.
    fn may_start(&self, source: Source) -> bool
        ensures { result ≡ (told self.now).may_start source };

    /// Whether the host's writing half is at hand and has not failed.
    fn half_home(&self) -> bool
        ensures { result ≡ (told self.now).half_home };
}

pub(crate) fn copy_fields(
    fields: &Option<Fields>,
    alloc: Global,
) -> Result<Option<Fields>, OutOfMemory>
    ensures { IfOk result (λ made. made ≡ fields.now) }
{
    match fields {
        None => Ok(None),
        Some(fields) => {
            let copied = fields.copy(alloc)?;
            Ok(Some(copied))
        }
    }
}

fn copy_check_config(
    urn: &Urn,
    inputs: &Fields,
    old: &Option<Fields>,
    alloc: Global,
) -> Result<Ask, OutOfMemory>
    ensures { IfOk result (λ made. made ≡ Ask.CheckConfig urn.now inputs.now old.now) }
{
    Ok(Ask::CheckConfig {
        urn: urn.copy()?,
        inputs: inputs.copy(alloc)?,
        old: copy_fields(old, alloc)?,
    })
}

fn copy_configure(inputs: &Fields, alloc: Global) -> Result<Ask, OutOfMemory>
    ensures { IfOk result (λ made. made ≡ Ask.Configure inputs.now) }
{
    Ok(Ask::Configure {
        inputs: inputs.copy(alloc)?,
    })
}

fn copy_check(
    urn: &Urn,
    inputs: &Fields,
    old: &Option<Fields>,
    alloc: Global,
) -> Result<Ask, OutOfMemory>
    ensures { IfOk result (λ made. made ≡ Ask.Check urn.now inputs.now old.now) }
{
    Ok(Ask::Check {
        urn: urn.copy()?,
        inputs: inputs.copy(alloc)?,
        old: copy_fields(old, alloc)?,
    })
}

fn copy_diff(
    urn: &Urn,
    id: &Text,
    old_inputs: &Fields,
    old_outputs: &Fields,
    inputs: &Fields,
    alloc: Global,
) -> Result<Ask, OutOfMemory>
    ensures { IfOk result (λ made. made ≡ Ask.Diff urn.now id.now old_inputs.now old_outputs.now inputs.now) }
{
    Ok(Ask::Diff {
        urn: urn.copy()?,
        id: id.copy()?,
        old_inputs: old_inputs.copy(alloc)?,
        old_outputs: old_outputs.copy(alloc)?,
        inputs: inputs.copy(alloc)?,
    })
}

fn copy_create(urn: &Urn, inputs: &Fields, alloc: Global) -> Result<Ask, OutOfMemory>
    ensures { IfOk result (λ made. made ≡ Ask.Create urn.now inputs.now) }
{
    Ok(Ask::Create {
        urn: urn.copy()?,
        inputs: inputs.copy(alloc)?,
    })
}

fn copy_update(
    urn: &Urn,
    id: &Text,
    old_inputs: &Fields,
    old_outputs: &Fields,
    inputs: &Fields,
    alloc: Global,
) -> Result<Ask, OutOfMemory>
    ensures { IfOk result (λ made. made ≡ Ask.Update urn.now id.now old_inputs.now old_outputs.now inputs.now) }
{
    Ok(Ask::Update {
        urn: urn.copy()?,
        id: id.copy()?,
        old_inputs: old_inputs.copy(alloc)?,
        old_outputs: old_outputs.copy(alloc)?,
        inputs: inputs.copy(alloc)?,
    })
}

fn copy_delete(
    urn: &Urn,
    id: &Text,
    inputs: &Fields,
    outputs: &Fields,
    alloc: Global,
) -> Result<Ask, OutOfMemory>
    ensures { IfOk result (λ made. made ≡ Ask.Delete urn.now id.now inputs.now outputs.now) }
{
    Ok(Ask::Delete {
        urn: urn.copy()?,
        id: id.copy()?,
        inputs: inputs.copy(alloc)?,
        outputs: outputs.copy(alloc)?,
    })
}

fn copy_read(
    urn: &Urn,
    id: &Text,
    inputs: &Fields,
    outputs: &Fields,
    alloc: Global,
) -> Result<Ask, OutOfMemory>
    ensures { IfOk result (λ made. made ≡ Ask.Read urn.now id.now inputs.now outputs.now) }
{
    Ok(Ask::Read {
        urn: urn.copy()?,
        id: id.copy()?,
        inputs: inputs.copy(alloc)?,
        outputs: outputs.copy(alloc)?,
    })
}

fn copy_invoke(token: &Text, args: &Fields, alloc: Global) -> Result<Ask, OutOfMemory>
    ensures { IfOk result (λ made. made ≡ Ask.Invoke token.now args.now) }
{
    Ok(Ask::Invoke {
        token: token.copy()?,
        args: args.copy(alloc)?,
    })
}
