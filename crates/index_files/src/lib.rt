//! The files that the programs read: the index files of a folder, and the bytes of any file; and how
//! a program over them ends early.
//!
//! Keeps: It opens files and names their faults. What a file holds is up to `index_loader`.
#![tactic(auto)]

mod failure;
mod fault;
mod file;
mod folder;
mod needed;
mod tally;

pub use failure::EarlyEnd;
pub use fault::{FileCause, FolderFault, IndexFileFault, Unread};
pub use file::bytes_of;
pub use folder::{FolderSums, indexes_for, indexes_in, summed_indexes_in};
