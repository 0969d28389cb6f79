//! Streams of any size, converted and checked in constant memory (Encoding Standard, "decode" and "encode").
//!
//! Keeps: It has no document, no line of a client and no file. A stream is a device that is read
//! once, and of a part nothing but numbers is kept once it is written or counted.
#![tactic(auto)]

mod checker;
mod checking;
mod conversion;
mod converter;
mod counts;
mod decoding;
mod head;
mod locating;
mod part_text;
mod placing;
mod reached;
mod refusal;
mod row;
mod stream;

pub use checking::{CheckFault, check};
pub use conversion::{Conversion, ConvertMode, PartFault, Spot};
pub use refusal::Refusal;
pub use row::{Found, Row};
pub use stream::{StreamFault, convert};
