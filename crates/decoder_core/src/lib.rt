//! The base of every decoder and encoder of the Encoding Standard.
//!
//! For decoders it has items with their ends, the trait of a decoder, the handler that makes one,
//! and runs over a slice. It has the decoders of UTF-8, UTF-16, the single-byte encodings,
//! x-user-defined and replacement. For encoders it has the trait of an encoder's handler, and the
//! call that runs it over a text.
//!
//! Keeps: It knows decoders and encoders by their tables, and no look for a byte order mark.
//!
//! Keeps (`Meter`): A meter is made by `meter` alone: the type has no other maker, no field and no
//! copy.
#![tactic(auto)]

mod all_laws;
mod ascii_runs;
mod bulk;
mod byte_blocks;
mod byte_bulk;
mod characters;
mod collector;
mod counts;
mod decoder;
mod driver;
mod encoder;
mod fault;
mod few;
pub mod forms;
mod handler;
mod item;
mod items;
mod laws;
mod makers;
mod memory;
mod one_byte;
mod own_text;
mod pair_bulk;
mod parts;
mod piece;
mod placed;
mod replacement;
mod run_bulk;
mod single_byte;
mod sink;
mod turns;
mod utf16;
mod utf16_bulk;
mod utf8;
mod utf8_own;
mod widths;
mod x_user_defined;

pub use all_laws::{law_all_among, law_all_runs};
pub use ascii_runs::AsciiRuns;
pub use bulk::{Bulk, NO_BULK, Stride};
pub use characters::Characters;
pub use counts::Meter;
pub use decoder::{Decoder, Escape, Simple, Step};
pub use driver::encode_by;
pub use encoder::{Encoder, EncoderAnswer, EncoderTurn};
pub use fault::{FromFault, Unencodable};
pub use few::Few;
pub use handler::{Answer, Handled, Handler};
pub use item::{Ended, Item};
pub use items::Items;
pub use laws::{law_among, law_one_run};
pub use makers::meter;
pub use memory::OutOfMemory;
pub use one_byte::OneByteState;
pub use own_text::own_piece;
pub use parts::decode_parts;
pub use piece::run_piece;
pub use placed::Placed;
pub use replacement::{ReplacementDecoder, ReplacementState};
pub use run_bulk::LONGEST_RUN;
pub use single_byte::SingleByteDecoder;
pub use sink::Sink;
pub use utf8::{Utf8Decoder, Utf8State};
pub use utf16::{ByteOrder, Utf16Decoder, Utf16State};
pub use x_user_defined::XUserDefinedDecoder;
