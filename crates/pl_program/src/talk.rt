use pl_program_file::{Known, Program};
use pl_urn::Urn;
use pl_value::{Bytes, Rows, Text};
use sqlite_items::Items;

/// The most requests that wait for their answers at one time. A host that only writes and an engine that only answers would
/// wait for each other once both pipes are full.
pub const MOST_UNANSWERED: usize = 64;

/// What a host has to say, and what it has heard.
#[derive(Debug, Drop)]
pub struct Talk {
    pub program: Program,
    /// The name of the stack's own resource.
    pub title: Text,
    pub preview: bool,
    /// The URN of the stack's own resource, once it is answered.
    pub stack: Option<Urn>,
    /// The other resources that are answered, in the order of their answers.
    pub known: Items<Known>,
    /// How many requests were sent. The first has number 1.
    pub asked: u64,
    /// The numbers of the requests that wait for their answers.
    pub unanswered: Rows,
    /// The text with which the host is to fail, once it is to.
    pub error: Option<Text>,
}

/// What a host does next. The bytes are the body of a frame.
#[derive(Debug, Drop)]
pub enum Turn {
    /// It waits for an answer.
    Await,
    /// It sends a request.
    Ask(Bytes),
    /// It sends its word of success.
    Done(Bytes),
    /// It sends its word of error.
    Failed(Bytes),
}
