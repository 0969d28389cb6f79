//! The decoders of the multi-byte encodings (Encoding Standard, "Legacy multi-byte Chinese",
//! "Japanese" and "Korean encodings"), each of which borrows its indexes.
//!
//! Keeps: It has tables and no loop over bytes: runs and meters are those of `decoder_core`.
#![tactic(auto)]

mod euc_jp;
mod gb18030;
mod pair_decoders;
mod pair_tables;
mod pairs;
mod turns;

pub use euc_jp::{EucJpDecoder, EucJpState};
pub use gb18030::{Gb18030Decoder, Gb18030State, GbkDecoder};
pub use pair_decoders::PairDecoders;
pub use pairs::PairState;
