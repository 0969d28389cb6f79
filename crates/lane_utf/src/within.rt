//! The number of leading code points of a text that fit within a number of units.
ghost use Rattle.std.specs.Prelude.{◌≡◌, ◌≤◌, length, drop};
ghost use Rattle.std.specs.Str.{chars};
ghost use Rattle.lane_utf.specs.Weights.{within_in};
ghost use Rattle.lane_utf.specs.Widths.{pair_width, utf8_width, utf16_width};
ghost use Rattle.lane_utf.specs.Within.{within};

use crate::counts::total_scalars;
use crate::measure::{Measure, PairBytes, Scalars, Utf16Units};
use lane_ascii::lead_of;
use std::simd::prelude::*;

/// Counts the leading code points that take at most `units` units of UTF-16. (Unicode, chapter 3,
/// D91.)
pub fn utf16_within(text: &str, units: usize) -> usize
    ensures { result ≡ within utf16_width (chars text.now) units }
{
    within::<Utf16Units>(text.as_bytes(), units)
}

/// Counts the leading code points that take at most `bytes` bytes in pairs. In an encoding of pairs
/// ASCII takes one byte, and all others take two.
pub fn pairs_within(text: &str, bytes: usize) -> usize
    ensures { result ≡ within pair_width (chars text.now) bytes }
{
    within::<PairBytes>(text.as_bytes(), bytes)
}

/// Counts the leading code points that take at most `bytes` bytes.
pub fn utf8_within(text: &str, bytes: usize) -> usize
    ensures { result ≡ within utf8_width (chars text.now) bytes }
{
    let all = text.as_bytes();
    if bytes >= all.len() {
        return total_scalars(all);
    }
    // Byte number `bytes` belongs to the last code point that begins at or before it, and which ends
    // after it.
    total_scalars(&all[..=bytes]) - 1
}

/// Counts the leading code points that weigh at most `n`. Whole blocks are counted while they do.
#[inline(always)]
fn within<M: Measure>(bytes: &[u8], n: usize) -> usize
    ensures { result ≡ within_in M.weight bytes.now n }
{
    let mut count = 0;
    let mut at = 0;
    let mut left = n;
    'whole: while bytes.len() - at >= 64 {
        let lanes = u8x64::from_slice(&bytes[at..]);
        let block = M::of_64(lanes);
        if block > left {
            break;
        }
        left -= block;
        count += Scalars::of_64(lanes);
        at += 64;
    }
    count + within_from::<M>(bytes, at, left)
}

/// Like `within`, from a byte, by blocks of sixteen bytes.
#[inline(always)]
fn within_from<M: Measure>(bytes: &[u8], from: usize, n: usize) -> usize
    requires { from ≤ length bytes.now }
    ensures { result ≡ within_in M.weight (drop from bytes.now) n }
{
    let mut count = 0;
    let mut at = from;
    let mut left = n;
    'steps: while bytes.len() - at >= 16 {
        let lanes = u8x16::from_slice(&bytes[at..]);
        let step = M::of_16(lanes);
        if step > left {
            break;
        }
        left -= step;
        count += Scalars::of_16(lanes);
        at += 16;
    }
    count + within_of_bytes::<M>(bytes, at, left)
}

/// Like `within_from`, byte by byte.
#[inline(always)]
fn within_of_bytes<M: Measure>(bytes: &[u8], from: usize, n: usize) -> usize
    requires { from ≤ length bytes.now }
    ensures { result ≡ within_in M.weight (drop from bytes.now) n }
{
    let mut count = 0;
    let mut at = from;
    let mut left = n;
    'bytes: while at < bytes.len() {
        let weight = M::of_byte(bytes[at]);
        if weight > left {
            return count;
        }
        left -= weight;
        count += lead_of(bytes[at]);
        at += 1;
    }
    count
}
