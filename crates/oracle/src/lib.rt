//! The common parts of tests and of the programs that measure and compare. They are documents that
//! look random, the plain answers that the product's are compared with, and counts of comparisons.
#![tactic(auto)]

mod agreement;
pub mod byte_loops;
mod drawing;
mod indexes;
mod plain;
mod rate;
mod ruler;
mod samples;
mod splice;
mod tally;
mod text;
pub mod text_loops;
pub mod texts;
pub mod tree;

pub use agreement::{agrees, pieces_are_sized};
pub use drawing::{bytes_of, length};
pub use indexes::small_indexes;
pub use plain::WalkedText;
pub use rate::megabytes_per_second;
pub use samples::{SAMPLES, Sample};
pub use splice::{DrawnSplice, spliced};
pub use tally::Tally;
pub use text::PlacedText;
