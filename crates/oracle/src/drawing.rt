//! Documents that look random, the same in each run.

use crate::samples::{COMMON, MARKS, Sample};
use rand::RngExt;
use rand::rngs::SmallRng;
use rand::seq::IndexedRandom;
use std::alloc::Global;

/// The way in which the bytes of a document are drawn.
#[derive(Clone, Copy)]
struct Style<'a> {
    /// Bytes of the encoding that occur.
    own: &'a [&'static [u8]],
    /// The number of common bytes in eight.
    common: usize,
}

/// A style of this encoding: some have many errors, some none, and a few nothing but line ends.
fn drawn_style<'a>(rng: &mut SmallRng, sample: &'a Sample) -> Style<'a> {
    let first = rng.random_range(0..=sample.fragments.len());
    let own = sample.fragments.get(first..).unwrap_or(&[]);
    let common = rng.random_range(0..5usize);
    Style { own, common }
}

/// A few bytes, one time in eight only some of them.
fn fragment(rng: &mut SmallRng, style: &Style<'_>) -> &'static [u8] {
    let from = if rng.random_range(0..8usize) < style.common {
        COMMON.as_slice()
    } else {
        style.own
    };
    let fragment = from.choose(rng).copied().unwrap_or(b"a");
    let cut = rng.random_range(1..32usize);
    fragment.get(..cut).unwrap_or(fragment)
}

/// Draws `len` bytes. `None` if memory is refused.
fn bytes_in(alloc: Global, rng: &mut SmallRng, style: &Style<'_>, len: usize) -> Option<Vec<u8>> {
    let mut bytes = Vec::new(alloc);
    for _ in 0..len {
        let part = fragment(rng, style);
        bytes.extend_from_slice(part).ok()?;
        if bytes.len() >= len {
            break;
        }
    }
    bytes.truncate(len);
    Some(bytes)
}

/// Draws about `len` bytes, sometimes after a byte order mark. `None` if memory is refused.
pub fn bytes_of(alloc: Global, rng: &mut SmallRng, sample: &Sample, len: usize) -> Option<Vec<u8>> {
    let style = drawn_style(rng, sample);
    let mut bytes = Vec::new(alloc);
    if rng.random_range(0..8usize) == 0 {
        let mark = MARKS.as_slice().choose(rng).copied().unwrap_or(b"");
        bytes.extend_from_slice(mark).ok()?;
    }
    let rest = bytes_in(alloc, rng, &style, len)?;
    bytes.extend_from_slice(&rest).ok()?;
    Some(bytes)
}

/// Draws the length of a document.
pub fn length(rng: &mut SmallRng) -> usize {
    let most = *[20, 3000, 20_000].as_slice().choose(rng).unwrap_or(&1);
    rng.random_range(1..=most)
}
