//! Lane-wise kernels over bytes. Each gives what its plain definition over the whole slice gives,
//! and none takes memory.
//!
//! Keeps: The kernels know bytes, and no decoder.
#![tactic(auto)]

mod bits;
mod class;
mod first_line;
mod lane_sum;
mod leads;
mod line_ends;
mod narrowing;
mod room;
mod runs;
mod swap;
mod widening;

pub use bits::ones_behind;
pub use first_line::{LineFront, first_line_end};
pub use lane_sum::sum_of_lanes;
pub use leads::{lead_of, lead_ones, leads_in};
pub use line_ends::{count_line_ends, nth_line_end};
pub use narrowing::narrow_ascii;
pub use room::NeedsRoom;
pub use runs::{ascii_run, plain_run_iso};
pub use swap::swap_pairs;
pub use widening::widen;
