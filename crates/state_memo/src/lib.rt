//! Pieces of a document, each of which remembers what it decodes to from the states in which it was
//! entered, and the sums of what pieces decode to.
//!
//! Keeps: It re-exports the type of the one decoder, but neither the trait `Decoder` nor calls such
//! as `decode_whole`. So a crate above decodes bytes by `Piece::compute` alone. It re-exports the
//! type of the meter, but not `meter`, so such a crate decodes on the meter that it borrows.
//!
//! Keeps (`Piece`): Of its calls, `compute` alone decodes.
//!
//! Keeps (`*`): What a piece decoded to is read, and no other type than `Piece` decodes.
#![tactic(auto)]

mod alike;
mod axis;
mod compute;
mod counting;
mod ended;
mod gathering;
mod items;
mod kind;
mod laws;
mod outcome;
mod outputs;
mod parts;
mod piece;
mod plain;
mod plain_items;
mod plain_runs;
mod run;
mod run_walks;
mod runs;
mod same;
mod shape;
mod shaped;
mod shaped_runs;
mod shaped_walks;
mod slot;
mod sum;
mod tail;

pub use axis::Axis;
pub use codec::{
    AnyDecoder, AnyState, Sniffed, law_items_are_at_most_bytes, law_output_at_the_end, sniff,
};
pub use compute::{finish_of, start_of};
pub use counting::{begins_lf, count_marks, ends_cr};
pub use decoder_core::{Meter, OutOfMemory};
pub use ended::Ended;
pub use iso2022jp::OutputState;
pub use items::ItemRuns;
pub use kind::ItemKind;
pub use laws::{law_items, law_marks, law_pieces, law_sums};
pub use outcome::{Outcome, Text};
pub use parts::split_at_scalar;
pub use piece::Piece;
pub use run::Run;
pub use runs::Runs;
pub use sum::Sum;
