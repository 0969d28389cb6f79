//! The end of a number of code points, or of units of UTF-16.
ghost use Rattle.std.specs.Prelude.{◌≡◌, ◌≤◌, length, drop};
ghost use Rattle.std.specs.Str.{chars};
ghost use Rattle.lane_utf.specs.Selected.{moved, selected, place_index, scalar_place};
ghost use Rattle.lane_utf.specs.Weights.{place_in};
ghost use Rattle.lane_utf.specs.Widths.{utf16_width};

use crate::measure::{Measure, Scalars, Utf16Units};
use crate::select::Select;
use std::simd::prelude::*;

/// The byte index of code point `n`, counted from 0: the byte after the first `n` code points. If
/// `n` is their number, it is the length in bytes; if `n` is larger, there is none.
pub fn nth_scalar(text: &str, n: usize) -> Option<usize>
    ensures { result ≡ scalar_place (chars text.now) n }
{
    index(place::<Scalars>(text.as_bytes(), n))
}

/// The byte, if there is one.
#[inline(always)]
fn index(place: Select) -> Option<usize>
    ensures { result ≡ place_index place }
{
    match place {
        Select::At(at) => Some(at),
        Select::Inside | Select::Past => None,
    }
}

/// The end of the first `n` UTF-16 units of a text. (Unicode, chapter 3, D91.)
pub fn nth_utf16(text: &str, n: usize) -> Select
    ensures { result ≡ selected utf16_width (chars text.now) n }
{
    place::<Utf16Units>(text.as_bytes(), n)
}

/// The place after a weight: whole blocks are counted, and the place is sought in one block.
#[inline(always)]
fn place<M: Measure>(bytes: &[u8], n: usize) -> Select
    ensures { result ≡ place_in M.weight bytes.now n }
{
    let mut at = 0;
    let mut left = n;
    'whole: while bytes.len() - at >= 64 {
        let block = M::of_64(u8x64::from_slice(&bytes[at..]));
        if block > left {
            break;
        }
        left -= block;
        at += 64;
    }
    place_from::<M>(bytes, at, left)
}

/// The place after a weight, starting at a byte.
#[inline(always)]
fn place_from<M: Measure>(bytes: &[u8], from: usize, n: usize) -> Select
    requires { from ≤ length bytes.now }
    ensures { result ≡ moved from (place_in M.weight (drop from bytes.now) n) }
{
    let mut at = from;
    let mut left = n;
    'steps: while bytes.len() - at >= 16 {
        let step = M::of_16(u8x16::from_slice(&bytes[at..]));
        if step > left {
            break;
        }
        left -= step;
        at += 16;
    }
    place_of_bytes::<M>(bytes, at, left)
}

/// Like `place_from`, byte by byte.
#[inline(always)]
fn place_of_bytes<M: Measure>(bytes: &[u8], from: usize, n: usize) -> Select
    requires { from ≤ length bytes.now }
    ensures { result ≡ moved from (place_in M.weight (drop from bytes.now) n) }
{
    let mut at = from;
    let mut left = n;
    'bytes: while at < bytes.len() {
        let weight = M::of_byte(bytes[at]);
        if weight > left && left > 0 {
            return Select::Inside;
        }
        if weight > left {
            return Select::At(at);
        }
        left -= weight;
        at += 1;
    }
    if left == 0 {
        Select::At(at)
    } else {
        Select::Past
    }
}
