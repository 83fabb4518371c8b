//! The real forms of the outside: a file, children, this program's own standard streams, and ids that
//! begin anywhere. They tell nothing of contents; what they count, and the words that they started, is
//! told.
#![tactic(auto)]

mod child_pipe;
mod children;
mod counts;
mod file_store;
mod random_ids;
mod standard_output;

pub use child_pipe::{ChildPipe, own_pipe};
pub use children::Children;
pub use file_store::{FileCover, FileStore};
pub use random_ids::RandomIds;
pub use standard_output::StandardOutput;
