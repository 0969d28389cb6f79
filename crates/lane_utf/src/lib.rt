//! Kernels over UTF-8 and UTF-16: lengths and places in a text, conversions between the two, and
//! what of a slice is well formed. None takes memory.
//!
//! Keeps: The kernels know UTF-8 and UTF-16, and no decoder.
#![tactic(auto)]

mod counts;
mod faults;
mod laws;
mod measure;
mod places;
mod select;
mod surrogates;
mod to_utf16;
mod to_utf8;
mod unit_runs;
mod utf8_length;
mod valid;
mod within;

pub use counts::{count_pair_bytes, count_scalars, count_utf16, count_utf16_of};
pub use faults::ToUtf8Fault;
pub use lane_ascii::NeedsRoom;
pub use laws::{law_forms, law_leads};
pub use places::{nth_scalar, nth_utf16};
pub use select::Select;
pub use surrogates::first_lone_surrogate;
pub use to_utf8::{put_scalar, utf16_to_utf8};
pub use to_utf16::utf8_to_utf16;
pub use valid::valid_run;
pub use within::{pairs_within, utf8_within, utf16_within};
