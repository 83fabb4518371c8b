//! A folder as the toy's shelf. It tells nothing of what its files hold; its faults are counted.
#![tactic(auto)]

mod folder_shelf;

pub use folder_shelf::FolderShelf;
