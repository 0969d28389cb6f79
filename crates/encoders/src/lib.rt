//! Encoders of all encodings (Encoding Standard, "encode"): the bytes of a code point in each, over
//! its indexes, and one call for them all.
//!
//! Keeps: It re-exports no decoder and no meter.
//!
//! Keeps (`*`): Its types are names and causes.
#![tactic(auto)]

mod dispatch;
mod euc_jp;
mod fault;
mod gb18030;
mod mode;
mod over_index;
mod pairs;
mod parts;
mod single_byte;
mod stateless;
mod utf16;
mod whole_text;
mod x_user_defined;

pub use decoder_core::Unencodable;
pub use dispatch::encode;
pub use fault::EncodeFault;
pub use mode::EncodeMode;
pub use parts::{Part, encode_part, law_parts};
