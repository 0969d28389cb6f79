//! One decoder for all encodings (Encoding Standard, "decode").
//!
//! Keeps: It knows no pieces. Tests compare documents with decoding from scratch, and that uses
//! nothing of how documents are kept.
//!
//! Keeps (`AnyDecoder`): A crate that has the type alone, and no trait, decodes nothing by it.
//!
//! Keeps (`OwnDecoder`): Nor does it by the result of `AnyDecoder::own`.
//!
//! Keeps (`*`): A state and a text that is being gathered decode nothing.
#![tactic(auto)]

mod by_any;
mod changes;
mod decoder;
mod decoding;
mod fault;
mod gathering;
mod law_standing;
mod laws;
mod mark;
mod output_laws;
mod own;
mod prefix;
mod sniffing;
mod state;
mod text_blocks;
mod whole;

pub use by_any::decode_any;
pub use changes::law_one_window;
pub use decoder::AnyDecoder;
pub use decoding::{Decoding, decode_by};
pub use fault::CodecFault;
pub use laws::{law_few_items, law_items_are_at_most_bytes};
pub use mark::{Sniffed, sniff};
pub use output_laws::law_output_at_the_end;
pub use own::OwnDecoder;
pub use prefix::Prefix;
pub use sniffing::{UTF_16BE, UTF_16LE};
pub use state::AnyState;
pub use text_blocks::TextBlocks;
pub use whole::{Decoded, decode_fatal, decode_whole};
