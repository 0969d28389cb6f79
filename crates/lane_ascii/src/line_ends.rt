//! Line marks: how many there are, and where.
ghost use Rattle.std.specs.Prelude.{◌≡◌, ◌+◌, ◌<◌, ◌≤◌, Bool, length, map, take, drop, MatchOption};
ghost use Rattle.std.specs.Int.RustNames.{count_ones};
ghost use Rattle.lane_ascii.specs.Flags.{flags_set};
ghost use Rattle.lane_ascii.specs.Marks.{is_mark, marks, mark_flags, one_if, IsNthMark};
ghost use lib.Lanes.{mask_l};

use crate::bits::nth_set;
use crate::lane_sum::sum_of_lanes;
use std::simd::prelude::*;

/// Counts the line marks. A mark is a CR, or an LF that doesn't follow a CR; `after_cr` says that a
/// CR precedes the slice (LSP 3.17, "Text Documents").
pub fn count_line_ends(bytes: &[u8], after_cr: bool) -> usize
    ensures { result ≡ marks after_cr bytes.now }
{
    match bytes.len() {
        0..=8 => count_short(bytes, after_cr),
        9..=16 => count_by::<8>(bytes, after_cr),
        17..=32 => count_by::<16>(bytes, after_cr),
        _ => count_by::<32>(bytes, after_cr),
    }
}

/// The index of line mark `n`, counted from 0, if there are more than `n`.
pub fn nth_line_end(bytes: &[u8], after_cr: bool, n: usize) -> Option<usize>
    ensures { MatchOption result (marks after_cr bytes.now ≤ n) (IsNthMark after_cr bytes.now n) }
{
    match bytes.len() {
        0..=8 => nth_short(bytes, after_cr, n),
        9..=16 => nth_by::<8>(bytes, after_cr, n),
        17..=32 => nth_by::<16>(bytes, after_cr, n),
        _ => nth_by::<32>(bytes, after_cr, n),
    }
}

/// Whether a byte is a mark. `after_cr` says whether it follows a CR.
#[inline(always)]
fn marks_line(byte: u8, after_cr: bool) -> bool
    ensures { result ≡ is_mark after_cr byte }
{
    byte == b'\r' || (byte == b'\n' && !after_cr)
}

/// 1 for each mark of a block, and 0 for each other byte. The block begins after the first byte: a
/// second load, one byte earlier, shows which bytes follow a CR.
#[inline(always)]
fn marks_at<const N: usize>(bytes: &[u8], at: usize) -> Simd<u8, N>
    requires some { 0 < at }
    requires room { at + N ≤ length bytes.now }
    ensures { (after_cr : Bool)
        → result ≡ map one_if (take N (drop at (mark_flags after_cr bytes.now))) }
{
    let here = Simd::<u8, N>::from_slice(&bytes[at..]);
    let before = Simd::<u8, N>::from_slice(&bytes[at - 1..]);
    let cr = Simd::splat(b'\r');
    let line_feeds = here.simd_eq(Simd::splat(b'\n')) & before.simd_ne(cr);
    let marks = here.simd_eq(cr) | line_feeds;
    marks.select(Simd::splat(1), Simd::splat(0))
}

/// Like `marks_at`, as one bit for each byte.
#[inline(always)]
fn marks_in<const N: usize>(bytes: &[u8], at: usize) -> u64
    requires few { N ≤ 64 }
    requires some { 0 < at }
    requires room { at + N ≤ length bytes.now }
    ensures { (after_cr : Bool)
        → result ≡ mask_l (take N (drop at (mark_flags after_cr bytes.now))) }
{
    let marks = marks_at::<N>(bytes, at);
    marks.simd_ne(Simd::splat(0)).to_bitmask()
}

/// The marks from `at` to the end, if fewer than N bytes are left. They are marks of the last
/// block, which begins before `at`.
#[inline(always)]
fn marks_left<const N: usize>(bytes: &[u8], at: usize) -> u64
    requires few { N < 64 }
    requires long { N < length bytes.now }
    requires room { at ≤ length bytes.now }
    requires rest { length bytes.now < at + N }
    ensures { (after_cr : Bool) → result ≡ mask_l (drop at (mark_flags after_cr bytes.now)) }
{
    let last = bytes.len() - N;
    marks_in::<N>(bytes, last) >> (at - last)
}

/// Counts the marks of a block of 128 bytes that begins after the first byte.
#[inline(always)]
fn marks_in_128(bytes: &[u8], at: usize) -> usize
    requires some { 0 < at }
    requires room { at + 128 ≤ length bytes.now }
    ensures { (after_cr : Bool)
        → result ≡ flags_set (take 128 (drop at (mark_flags after_cr bytes.now))) }
{
    sum_of_lanes(marks_at::<64>(bytes, at), marks_at::<64>(bytes, at + 64))
}

/// Counts 128 bytes at a time, and the rest N bytes at a time.
#[inline(always)]
fn count_by<const N: usize>(bytes: &[u8], after_cr: bool) -> usize
    requires some { 0 < N }
    requires few { N < 64 }
    requires long { N < length bytes.now }
    ensures { result ≡ marks after_cr bytes.now }
{
    let mut count = usize::from(marks_line(bytes[0], after_cr));
    let mut at = 1;
    'parts: while bytes.len() - at >= 128 {
        count += marks_in_128(bytes, at);
        at += 128;
    }
    'steps: while bytes.len() - at >= N {
        count += marks_in::<N>(bytes, at).count_ones() as usize;
        at += N;
    }
    count + marks_left::<N>(bytes, at).count_ones() as usize
}

/// Counts byte by byte.
#[inline(always)]
fn count_short(bytes: &[u8], after_cr: bool) -> usize
    ensures { result ≡ marks after_cr bytes.now }
{
    let mut count = 0;
    let mut behind_cr = after_cr;
    'bytes: for byte in bytes {
        count += usize::from(marks_line(*byte, behind_cr));
        behind_cr = *byte == b'\r';
    }
    count
}

/// Skips N bytes at a time by their number of marks.
#[inline(always)]
fn nth_by<const N: usize>(bytes: &[u8], after_cr: bool, n: usize) -> Option<usize>
    requires some { 0 < N }
    requires few { N < 64 }
    requires long { N < length bytes.now }
    ensures { MatchOption result (marks after_cr bytes.now ≤ n) (IsNthMark after_cr bytes.now n) }
{
    let mut before = usize::from(marks_line(bytes[0], after_cr));
    if n < before {
        return Some(0);
    }
    let mut at = 1;
    'steps: while bytes.len() - at >= N {
        let mask = marks_in::<N>(bytes, at);
        let count = mask.count_ones() as usize;
        if n - before < count {
            return Some(at + nth_set(mask, n - before));
        }
        before += count;
        at += N;
    }
    let mask = marks_left::<N>(bytes, at);
    if n - before < mask.count_ones() as usize {
        Some(at + nth_set(mask, n - before))
    } else {
        None
    }
}

/// Searches byte by byte.
#[inline(always)]
fn nth_short(bytes: &[u8], after_cr: bool, n: usize) -> Option<usize>
    ensures { MatchOption result (marks after_cr bytes.now ≤ n) (IsNthMark after_cr bytes.now n) }
{
    let mut left = n;
    let mut behind_cr = after_cr;
    'bytes: for (at, byte) in bytes.iter().enumerate() {
        if marks_line(*byte, behind_cr) {
            if left == 0 {
                return Some(at);
            }
            left -= 1;
        }
        behind_cr = *byte == b'\r';
    }
    None
}
