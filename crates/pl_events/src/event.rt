ghost use Rattle.std.specs.Prelude.{◌≡◌, IfOk};

use crate::operation::Op;
use crate::reply::{Loss, Reply};
use pl_reference::copy_text;
use pl_state::Registration;
use pl_urn::Urn;
use pl_value::{Bytes, Fields, OutOfMemory, Text};
use std::alloc::Global;

/// One event of a run, with the seat of the thread that appended it.
#[derive(Debug, Drop)]
pub struct Event {
    pub seat: u64,
    pub what: What,
}

#[derive(Debug, Drop)]
pub enum What {
    /// The host's message was accepted as a message.
    Told(Request),
    /// The host gives nothing more.
    HostGone(HostEnd),
    /// An operation was sent to the provider child `lane`; a ticket is the number of the operation, from 0.
    Begun { ticket: u64, lane: u64, op: Op },
    /// The operation's reply came.
    Answered { ticket: u64, reply: Reply },
    /// The operation's reply will not come.
    Lost { ticket: u64, why: Loss },
    /// The entry of goal `goal`, counted from 0, was put into the snapshot without an operation; `fresh` is the
    /// number that a new provider's id is made of.
    Kept { goal: u64, fresh: Option<u128> },
    /// A row of the state at the start was taken out without an operation.
    Dropped { row: u64 },
    /// A pending operation of the state at the start was taken out.
    Cleared { at: u64 },
    /// Request `n` was answered.
    Posted { n: u64 },
    /// The run stopped taking up work.
    Stopped(Stop),
}

/// What a host asks for. `n` is the request's number.
#[derive(Debug, Drop)]
pub enum Request {
    Register {
        n: u64,
        told: Registration,
    },
    /// The outputs of a component that was registered.
    Outputs {
        n: u64,
        urn: Text,
        outputs: Fields,
    },
    Invoke {
        n: u64,
        token: Text,
        args: Fields,
        provider: Option<Text>,
        version: Option<Text>,
    },
}

/// How a host's messages ended.
#[derive(Debug, Drop)]
pub enum HostEnd {
    /// By the host's word of success.
    Success,
    /// By the host's word of error, with its text.
    Error(Text),
    /// The host's output ended before its last word.
    Ended,
    /// A read of the host's output failed.
    PipeFault,
    /// The bytes of a frame that is no message that may stand there; for a bad length its four bytes.
    BadFrame(Bytes),
    /// No memory was found for what the host sent.
    NoMemory,
}

#[derive(Clone, Copy, Debug)]
pub enum Stop {
    /// The checkpoint could not be replaced.
    StoreFault,
    /// A provider child could not be started.
    StartFault,
    /// An answer could not be given to the host.
    HostPipeFault,
    /// One resource more than a state may hold would have come.
    TooManyResources,
    /// A message's frame would have been longer than a frame may be.
    MessageTooLong,
    NoMemory,
}

/// What the host is answered.
#[derive(Debug, Drop)]
pub enum Answer {
    Registered {
        urn: Urn,
        id: Option<Text>,
        outputs: Fields,
    },
    /// The outputs that were told are noted.
    Noted,
    /// The result of an invoke.
    Result(Fields),
    Refused(Text),
}

impl Event {
    pub fn copy(&self, alloc: Global) -> Result<Event, OutOfMemory>
        ensures { IfOk result (λ made. made ≡ self.now) }
    {
        let what = self.what.copy(alloc)?;
        Ok(Event {
            seat: self.seat,
            what,
        })
    }
}

impl What {
    pub fn copy(&self, alloc: Global) -> Result<What, OutOfMemory>
        ensures { IfOk result (λ made. made ≡ self.now) }
    {
        Ok(match self {
            What::Told(request) => What::Told(request.copy(alloc)?),
            What::HostGone(end) => What::HostGone(end.copy(alloc)?),
            What::Begun { ticket, lane, op } => What::Begun {
                ticket: *ticket,
                lane: *lane,
                op: *op,
            },
            What::Answered { ticket, reply } => What::Answered {
                ticket: *ticket,
                reply: reply.copy(alloc)?,
            },
            What::Lost { ticket, why } => What::Lost {
                ticket: *ticket,
                why: why.copy(alloc)?,
            },
            What::Kept { goal, fresh } => What::Kept {
                goal: *goal,
                fresh: *fresh,
            },
            What::Dropped { row } => What::Dropped { row: *row },
            What::Cleared { at } => What::Cleared { at: *at },
            What::Posted { n } => What::Posted { n: *n },
            What::Stopped(stop) => What::Stopped(*stop),
        })
    }
}

impl Request {
    pub fn copy(&self, alloc: Global) -> Result<Request, OutOfMemory>
        ensures { IfOk result (λ made. made ≡ self.now) }
    {
        Ok(match self {
            Request::Register { n, told } => Request::Register {
                n: *n,
                told: told.copy(alloc)?,
            },
            Request::Outputs { n, urn, outputs } => Request::Outputs {
                n: *n,
                urn: urn.copy()?,
                outputs: outputs.copy(alloc)?,
            },
            Request::Invoke {
                n,
                token,
                args,
                provider,
                version,
            } => Request::Invoke {
                n: *n,
                token: token.copy()?,
                args: args.copy(alloc)?,
                provider: copy_text(provider)?,
                version: copy_text(version)?,
            },
        })
    }
}

impl HostEnd {
    pub fn copy(&self, alloc: Global) -> Result<HostEnd, OutOfMemory>
        ensures { IfOk result (λ made. made ≡ self.now) }
    {
        Ok(match self {
            HostEnd::Success => HostEnd::Success,
            HostEnd::Error(text) => HostEnd::Error(text.copy()?),
            HostEnd::Ended => HostEnd::Ended,
            HostEnd::PipeFault => HostEnd::PipeFault,
            HostEnd::BadFrame(bytes) => {
                HostEnd::BadFrame(Bytes::from_slice(alloc, bytes.as_slice())?)
            }
            HostEnd::NoMemory => HostEnd::NoMemory,
        })
    }
}

impl Answer {
    pub fn copy(&self, alloc: Global) -> Result<Answer, OutOfMemory>
        ensures { IfOk result (λ made. made ≡ self.now) }
    {
        Ok(match self {
            Answer::Registered { urn, id, outputs } => Answer::Registered {
                urn: urn.copy()?,
                id: copy_text(id)?,
                outputs: outputs.copy(alloc)?,
            },
            Answer::Noted => Answer::Noted,
            Answer::Result(fields) => Answer::Result(fields.copy(alloc)?),
            Answer::Refused(text) => Answer::Refused(text.copy()?),
        })
    }
}
