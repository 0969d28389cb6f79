//! The number of code points, units of UTF-16, or bytes of an encoding of pairs that a text takes.
ghost use Rattle.std.specs.Prelude.{◌≡◌, ◌+◌, ◌<◌, ◌≤◌, true, length, take, drop};
ghost use Rattle.std.specs.Str.{chars};
ghost use Rattle.lane_ascii.specs.Leads.{one_lead};
ghost use Rattle.lane_utf.specs.Weights.{AreBelowFour, utf16_weight};
ghost use Rattle.lane_utf.specs.Widths.{pair_width, total_width, utf16_width};

use crate::measure::{Measure, PairBytes, Scalars, Utf16Units, fours};
use lane_ascii::{lead_ones, sum_of_lanes};
use std::simd::prelude::*;

/// The number of code points.
pub fn count_scalars(text: &str) -> usize
    ensures { result ≡ length (chars text.now) }
{
    total_scalars(text.as_bytes())
}

/// The number of units of its UTF-16 form (Unicode, chapter 3, D91).
pub fn count_utf16(text: &str) -> usize
    ensures { result ≡ total_width utf16_width (chars text.now) }
{
    total::<Utf16Units>(text.as_bytes(), 0)
}

/// The number of units of UTF-16 of a text of `scalars` code points: mostly none has four bytes,
/// and there are as many units.
pub fn count_utf16_of(text: &str, scalars: usize) -> usize
    requires { scalars ≡ length (chars text.now) }
    ensures { result ≡ total_width utf16_width (chars text.now) }
{
    if lacks_fours(text.as_bytes()) {
        scalars
    } else {
        count_utf16(text)
    }
}

/// The number of bytes that it takes in an encoding of pairs: one for each ASCII code point, and two
/// for each of all others.
pub fn count_pair_bytes(text: &str) -> usize
    ensures { result ≡ total_width pair_width (chars text.now) }
{
    total::<PairBytes>(text.as_bytes(), 0)
}

/// Whether no code point has four bytes, as far as that is seen at once: of a text of few bytes it
/// isn't said.
#[inline(always)]
fn lacks_fours(bytes: &[u8]) -> bool
    ensures { result ≡ true → total_width utf16_weight bytes.now ≡ total_width one_lead bytes.now }
{
    if bytes.len() < 128 {
        return false;
    }
    let mut at = 0;
    'parts: while bytes.len() - at >= 128 {
        if !are_below_four(bytes, at) {
            return false;
        }
        at += 128;
    }
    // The last block begins among those before it.
    are_below_four(bytes, bytes.len() - 128)
}

/// Whether none of 128 bytes begins a code point of four bytes.
#[inline(always)]
fn are_below_four(bytes: &[u8], at: usize) -> bool
    requires { at + 128 ≤ length bytes.now }
    ensures { result ≡ true → AreBelowFour bytes.now at (at + 128) }
{
    let first = u8x64::from_slice(&bytes[at..]);
    let second = u8x64::from_slice(&bytes[at + 64..]);
    fours(first.simd_max(second)) == 0
}

/// Counts the code points that begin in all bytes.
#[inline(always)]
pub(crate) fn total_scalars(bytes: &[u8]) -> usize
    ensures { result ≡ total_width one_lead bytes.now }
{
    let mut sum = 0;
    let mut at = 0;
    'parts: while bytes.len() - at >= 128 {
        sum += scalars_in_128(bytes, at);
        at += 128;
    }
    sum + total::<Scalars>(bytes, at)
}

/// Counts the code points that begin in 128 bytes.
#[inline(always)]
fn scalars_in_128(bytes: &[u8], at: usize) -> usize
    requires { at + 128 ≤ length bytes.now }
    ensures { result ≡ total_width one_lead (take 128 (drop at bytes.now)) }
{
    let first = u8x64::from_slice(&bytes[at..]);
    let second = u8x64::from_slice(&bytes[at + 64..]);
    sum_of_lanes(lead_ones(first), lead_ones(second))
}

/// The sum of the weights from a byte on.
#[inline(always)]
fn total<M: Measure>(bytes: &[u8], from: usize) -> usize
    requires { from ≤ length bytes.now }
    ensures { result ≡ total_width M.weight (drop from bytes.now) }
{
    let mut sum = 0;
    let mut at = from;
    'whole: while bytes.len() - at >= 64 {
        sum += M::of_64(u8x64::from_slice(&bytes[at..]));
        at += 64;
    }
    sum + total_from::<M>(bytes, at)
}

/// Like `total`, by blocks of sixteen bytes.
#[inline(always)]
fn total_from<M: Measure>(bytes: &[u8], from: usize) -> usize
    requires { from ≤ length bytes.now }
    ensures { result ≡ total_width M.weight (drop from bytes.now) }
{
    let mut sum = 0;
    let mut at = from;
    'steps: while bytes.len() - at >= 16 {
        sum += M::of_16(u8x16::from_slice(&bytes[at..]));
        at += 16;
    }
    sum + total_left::<M>(bytes, at)
}

/// Like `total`, for fewer bytes than a block. It counts in the last block, which begins before them.
#[inline(always)]
fn total_left<M: Measure>(bytes: &[u8], from: usize) -> usize
    requires within { from ≤ length bytes.now }
    requires few { length bytes.now < from + 16 }
    ensures { result ≡ total_width M.weight (drop from bytes.now) }
{
    if bytes.len() < 16 {
        return total_of_bytes::<M>(bytes, from);
    }
    let last = bytes.len() - 16;
    M::behind(u8x16::from_slice(&bytes[last..]), from - last)
}

/// Like `total`, byte by byte.
#[inline(always)]
fn total_of_bytes<M: Measure>(bytes: &[u8], from: usize) -> usize
    requires { from ≤ length bytes.now }
    ensures { result ≡ total_width M.weight (drop from bytes.now) }
{
    let mut sum = 0;
    let mut at = from;
    'bytes: while at < bytes.len() {
        sum += M::of_byte(bytes[at]);
        at += 1;
    }
    sum
}
