//! The decoder of ISO-2022-JP (Encoding Standard, "ISO-2022-JP decoder") and its encoder
//! ("ISO-2022-JP encoder"), which borrow their indexes.
//!
//! Keeps: It re-exports its decoder, but neither the traits by which a decoder is called nor a
//! meter.
//!
//! Keeps (`*`): Its other types don't decode.
#![tactic(auto)]

mod decoder;
mod from_state;
mod iso_encoder;
mod items;
mod jis_pointer;
mod laws;
mod output;
mod state;

pub use decoder::Iso2022JpDecoder;
pub use decoder_core::{FromFault, Unencodable};
pub use from_state::{encode_from, law_no_second_restore};
pub use iso_encoder::escape_of;
pub use jis_pointer::row_pointer;
pub use laws::law_output_at_the_end;
pub use output::OutputState;
pub use state::Iso2022JpState;
