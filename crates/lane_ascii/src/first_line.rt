//! The first line mark, and the text before it.
ghost use Rattle.std.specs.Prelude.{◌≡◌, ◌+◌, ◌<◌, ◌≤◌, false, length, map, take, drop, not, MatchOption};
ghost use Rattle.std.specs.List.{prefix_len};
ghost use Rattle.lane_ascii.specs.Leads.{in_line, is_low, leads, AreHigh};
ghost use Rattle.lane_ascii.specs.Marks.{marks, IsNthMark};
ghost use lib.Lanes.{mask_l};

use crate::bits::{lowest_set, ones_before};
use crate::lane_sum::sum_of_lanes;
use crate::leads::{lead_of, lead_ones, leads_in};
use std::simd::prelude::*;

/// A place in a text in UTF-8, and the code points before it.
#[derive(Clone, Copy, PartialEq, Eq, Debug)]
pub struct LineFront {
    /// The index of a byte.
    pub at: usize,
    /// The number of bytes before it that begin a code point.
    pub leads: usize,
}

/// Finds the first line mark, a CR or an LF. Returns its place, and how many code points of a text
/// in UTF-8 begin before it. Without a mark there is no result. It takes one walk.
pub fn first_line_end(bytes: &[u8]) -> Option<LineFront>
    ensures { MatchOption result (marks false bytes.now ≤ 0)
        (λ front. IsNthMark false bytes.now 0 front.at × (front.leads ≡ leads (take front.at bytes.now))) }
{
    let front = line_front(bytes);
    if front.at < bytes.len() {
        Some(front)
    } else {
        None
    }
}

/// Counts the bytes before the first mark, and those that begin a code point.
#[inline(always)]
fn line_front(bytes: &[u8]) -> LineFront
    ensures at { result.at ≡ prefix_len in_line bytes.now }
    ensures leads { result.leads ≡ leads (take result.at bytes.now) }
{
    let mut at = 0;
    let mut leads = 0;
    'parts: while bytes.len() - at >= 64 {
        let front = end_in_64(bytes, at);
        if front < 64 {
            return LineFront {
                at: at + front,
                leads: leads + leads_before(bytes, at, front),
            };
        }
        leads += leads_of_64(bytes, at);
        at += 64;
    }
    let rest = line_front_by_16(&bytes[at..]);
    LineFront {
        at: at + rest.at,
        leads: leads + rest.leads,
    }
}

/// Like `line_front`, for a few bytes, by shorter blocks.
#[inline(always)]
fn line_front_by_16(bytes: &[u8]) -> LineFront
    ensures at { result.at ≡ prefix_len in_line bytes.now }
    ensures leads { result.leads ≡ leads (take result.at bytes.now) }
{
    let mut at = 0;
    let mut leads = 0;
    'steps: while bytes.len() - at >= 16 {
        let lanes = u8x16::from_slice(&bytes[at..]);
        let front = lowest_set(ends_in(lanes), 16);
        leads += ones_before(leads_in(lanes), front);
        at += front;
        if front < 16 {
            return LineFront { at, leads };
        }
    }
    'bytes: while at < bytes.len() && in_line(bytes[at]) {
        leads += lead_of(bytes[at]);
        at += 1;
    }
    LineFront { at, leads }
}

/// Counts the first bytes of a block of 64 that begin a code point.
#[inline(always)]
fn leads_before(bytes: &[u8], at: usize, front: usize) -> usize
    requires room { at + 64 ≤ length bytes.now }
    requires front { front < 64 }
    ensures { result ≡ leads (take front (drop at bytes.now)) }
{
    ones_before(leads_in(u8x64::from_slice(&bytes[at..])), front)
}

/// Counts the bytes, of 64, that begin a code point.
#[inline(always)]
fn leads_of_64(bytes: &[u8], at: usize) -> usize
    requires { at + 64 ≤ length bytes.now }
    ensures { result ≡ leads (take 64 (drop at bytes.now)) }
{
    let first = u8x32::from_slice(&bytes[at..]);
    let second = u8x32::from_slice(&bytes[at + 32..]);
    sum_of_lanes(lead_ones(first), lead_ones(second))
}

/// The place of the first CR or LF in 64 bytes, or 64.
#[inline(always)]
fn end_in_64(bytes: &[u8], at: usize) -> usize
    requires front { at ≤ prefix_len in_line bytes.now }
    requires room { at + 64 ≤ length bytes.now }
    ensures end { result < 64 → at + result ≡ prefix_len in_line bytes.now }
    ensures none { 64 ≤ result → at + 64 ≤ prefix_len in_line bytes.now }
{
    if may_end(bytes, at) {
        lowest_set(ends_in(u8x64::from_slice(&bytes[at..])), 64)
    } else {
        64
    }
}

/// Whether one of 64 bytes may be CR or LF: in most blocks of a long line no byte is so low, which the
/// least of each four tells.
#[inline(always)]
fn may_end(bytes: &[u8], at: usize) -> bool
    requires front { at ≤ prefix_len in_line bytes.now }
    requires room { at + 64 ≤ length bytes.now }
    ensures { result ≡ false → at + 64 ≤ prefix_len in_line bytes.now }
{
    let first = u8x16::from_slice(&bytes[at..]);
    let second = u8x16::from_slice(&bytes[at + 16..]);
    let third = u8x16::from_slice(&bytes[at + 32..]);
    let fourth = u8x16::from_slice(&bytes[at + 48..]);
    low_in(lower(lower(first, second), lower(third, fourth))) != 0
}

/// The lanes that are as low as CR and LF are.
#[inline(always)]
fn low_in<const N: usize>(lanes: Simd<u8, N>) -> u64
    requires { N ≤ 64 }
    ensures { result ≡ mask_l (map is_low lanes.entry) }
{
    lanes.simd_lt(Simd::splat(14)).to_bitmask()
}

/// The lower lane of each two.
#[inline(always)]
fn lower(first: u8x16, second: u8x16) -> u8x16
    ensures { AreHigh result → AreHigh first × AreHigh second }
{
    first.simd_min(second)
}

/// The lanes that are CR or LF.
#[inline(always)]
fn ends_in<const N: usize>(lanes: Simd<u8, N>) -> u64
    requires { N ≤ 64 }
    ensures { result ≡ mask_l (map (λ b. not (in_line b)) lanes.entry) }
{
    let ends = lanes.simd_eq(Simd::splat(b'\r')) | lanes.simd_eq(Simd::splat(b'\n'));
    ends.to_bitmask()
}

/// Whether a byte is neither CR nor LF.
#[inline(always)]
fn in_line(byte: u8) -> bool
    ensures { result ≡ in_line byte }
{
    byte != b'\r' && byte != b'\n'
}
