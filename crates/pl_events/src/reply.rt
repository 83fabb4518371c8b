ghost use Rattle.std.specs.Prelude.{◌≡◌, [], ◌∷◌, ◌++◌, IfOk, length, OnErr, OnOk, slice_get};
ghost use Rattle.std.specs.Option.{option_copied};

use crate::operation::copy_fields;
use pl_state::Diffed;
use pl_value::{Bytes, Fields, OutOfMemory, Text, Texts};
use std::alloc::Global;
use std::marker::Model;

/// Properties, each with the reason for which its value is refused, seen as pairs.
#[derive(Debug, Drop)]
pub struct Reasons {
    pairs: Vec<(Text, Text)>,
}

impl Model for Reasons {
    ghost use Rattle.std.specs.Prelude.{List, ℕ};

    ghost Value = { List (List ℕ × List ℕ) };

    ghost view = { λ a. a.pairs.items };
}

impl Reasons {
    /// Nothing in the list; takes no memory.
    pub fn new(alloc: Global) -> Reasons
        ensures { result ≡ [] }
    {
        Reasons {
            pairs: Vec::new(alloc),
        }
    }

    /// Over the given vector; takes no memory.
    pub fn from_vec(pairs: Vec<(Text, Text)>) -> Reasons
        ensures { result ≡ pairs.items }
    {
        Reasons { pairs }
    }

    /// Gives the vector back; takes no memory.
    pub fn into_vec(self) -> Vec<(Text, Text)>
        ensures { result.items ≡ self }
    {
        let Reasons { pairs } = self;
        pairs
    }

    pub fn as_slice(&self) -> &[(Text, Text)]
        ensures { result.now ≡ self.now }
    {
        self.pairs.as_slice()
    }

    pub fn len(&self) -> usize
        ensures { result ≡ length self.now }
    {
        self.pairs.len()
    }

    /// The pair at this place, from 0.
    pub fn get(&self, place: usize) -> Option<&(Text, Text)>
        ensures { option_copied result ≡ slice_get self.now place }
    {
        self.pairs.get(place)
    }

    /// Adds a pair at the end; after `OutOfMemory` nothing was added.
    pub fn push(&mut self, pair: (Text, Text)) -> Result<(), OutOfMemory>
        ensures added { OnOk result (self.new ≡ self.old ++ pair ∷ []) }
        ensures unchanged { OnErr result (self.new ≡ self.old) }
    {
        self.pairs.push(pair)?;
        Ok(())
    }

    pub fn copy(&self) -> Result<Reasons, OutOfMemory>
        ensures { IfOk result (λ made. made ≡ self.now) }
    {
        let mut pairs = Vec::new(*self.pairs.allocator());
        for pair in &self.pairs {
            pairs.push((pair.0.copy()?, pair.1.copy()?))?;
        }
        Ok(Reasons { pairs })
    }
}

/// What a provider replies to a call.
#[derive(Debug, Drop)]
pub enum Reply {
    /// The checked inputs.
    Checked(Fields),
    /// The inputs are refused, property by property.
    CheckFailed(Reasons),
    Configured,
    Diffed(Diffed),
    Made {
        id: Text,
        outputs: Fields,
    },
    /// It was made, and something about it failed.
    MadePartly {
        id: Text,
        outputs: Fields,
        reasons: Texts,
    },
    Changed {
        outputs: Fields,
    },
    /// It was changed, and something about it failed.
    ChangedPartly {
        outputs: Fields,
        reasons: Texts,
    },
    Removed,
    Found {
        id: Text,
        inputs: Option<Fields>,
        outputs: Fields,
    },
    Gone,
    Result(Fields),
    Error(Text),
}

impl Reply {
    pub fn copy(&self, alloc: Global) -> Result<Reply, OutOfMemory>
        ensures { IfOk result (λ made. made ≡ self.now) }
    {
        Ok(match self {
            Reply::Checked(inputs) => Reply::Checked(inputs.copy(alloc)?),
            Reply::CheckFailed(reasons) => Reply::CheckFailed(reasons.copy()?),
            Reply::Configured => Reply::Configured,
            Reply::Diffed(diffed) => Reply::Diffed(diffed.copy()?),
            Reply::Made { id, outputs } => Reply::Made {
                id: id.copy()?,
                outputs: outputs.copy(alloc)?,
            },
            Reply::MadePartly {
                id,
                outputs,
                reasons,
            } => Reply::MadePartly {
                id: id.copy()?,
                outputs: outputs.copy(alloc)?,
                reasons: reasons.copy()?,
            },
            Reply::Changed { outputs } => Reply::Changed {
                outputs: outputs.copy(alloc)?,
            },
            Reply::ChangedPartly { outputs, reasons } => Reply::ChangedPartly {
                outputs: outputs.copy(alloc)?,
                reasons: reasons.copy()?,
            },
            Reply::Removed => Reply::Removed,
            Reply::Found {
                id,
                inputs,
                outputs,
            } => Reply::Found {
                id: id.copy()?,
                inputs: copy_fields(inputs, alloc)?,
                outputs: outputs.copy(alloc)?,
            },
            Reply::Gone => Reply::Gone,
            Reply::Result(fields) => Reply::Result(fields.copy(alloc)?),
            Reply::Error(text) => Reply::Error(text.copy()?),
        })
    }
}

/// Why there is no reply to an operation that was sent.
#[derive(Debug, Drop)]
pub enum Loss {
    PipeFault,
    /// The child's output ended before its reply.
    Ended,
    /// The bytes of a frame that is no reply to the call; for a bad length its four bytes.
    BadFrame(Bytes),
    NoMemory,
}

impl Loss {
    pub fn copy(&self, alloc: Global) -> Result<Loss, OutOfMemory>
        ensures { IfOk result (λ made. made ≡ self.now) }
    {
        Ok(match self {
            Loss::PipeFault => Loss::PipeFault,
            Loss::Ended => Loss::Ended,
            Loss::BadFrame(bytes) => Loss::BadFrame(Bytes::from_slice(alloc, bytes.as_slice())?),
            Loss::NoMemory => Loss::NoMemory,
        })
    }
}

/// What came of one exchange with a provider child.
#[derive(Debug, Drop)]
pub enum Exchanged {
    Reply(Reply),
    Lost(Loss),
}

impl Exchanged {
    pub fn copy(&self, alloc: Global) -> Result<Exchanged, OutOfMemory>
        ensures { IfOk result (λ made. made ≡ self.now) }
    {
        Ok(match self {
            Exchanged::Reply(reply) => Exchanged::Reply(reply.copy(alloc)?),
            Exchanged::Lost(loss) => Exchanged::Lost(loss.copy(alloc)?),
        })
    }
}
