//! A list with the sums of its prefixes, in the form of a balanced tree. An element is reached,
//! inserted, replaced or removed along one path; a run of elements is replaced in one walk.
//!
//! Keeps: It knows no document. A count of visits comes from `visits` alone.
//!
//! Keeps (`Visits`): A count is made by `visits` alone: the type has no other maker, no field and
//! no copy.
//!
//! Keeps (`Finder`): Through a `Finder` an element is reached only by a search that is counted.
//!
//! Keeps (`SumTree`): The elements of a tree can also be reached uncounted, so a crate whose
//! searches are bounded borrows a `Finder` of it.
//!
//! Keeps (`*`): Its traits make no count, and give access to no element of a tree.
#![tactic(auto)]

mod build;
mod copy;
mod counter;
mod finder;
mod grown;
mod insert;
mod laws;
mod makers;
mod memory;
mod node;
mod pool;
mod refill;
mod remove;
mod replace;
mod root;
mod search;
mod shrunk;
mod summary;
mod tree;

pub use counter::Visits;
pub use finder::Finder;
pub use laws::law_sums_of_lists;
pub use makers::visits;
pub use memory::OutOfMemory;
pub use summary::{Dimension, Summary, Summed, TryCopy};
pub use tree::SumTree;
