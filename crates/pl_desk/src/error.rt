//! What a call may find wanting.
use thiserror::Error;

/// There was no memory.
#[derive(Debug, Clone, Copy, PartialEq, Eq, Error)]
#[error("out of memory")]
pub struct OutOfMemory;
