//! Code points in a row that have equally many bytes of UTF-8.
ghost use Rattle.std.specs.Prelude.{◌≡◌, ◌<◌, ◌≤◌, ◌+◌, ◌*◌, ◌^◌, ◌||◌, ℕ, nat_lt, nat_le, length, map, take};
ghost use Rattle.std.specs.{Int.bit_at, Str.continuation_len};
ghost use Rattle.state_memo.specs.Alike.{AreAlike};
ghost use lib.Dec.{leb};
ghost use lib.Lanes.{mask_l};

use lane_ascii::ascii_run;
use std::simd::prelude::*;

/// The bit after those of the first sixteen bytes.
const BEHIND: u64 = 0x10000;

/// Code points in a row that have equally many bytes of UTF-8.
#[derive(Clone, Copy)]
pub(crate) struct Alike {
    /// The number of bytes of each.
    pub len: usize,
    /// The number of these code points.
    pub count: u16,
}

/// The length in UTF-8 of the code point that begins with this byte.
// In the loop over the runs.
#[inline(always)]
pub(crate) fn scalar_len(lead: u8) -> usize
    ensures { result ≡ continuation_len lead + 1 }
{
    match lead {
        0..0x80 => 1,
        0x80..0xE0 => 2,
        0xE0..0xF0 => 3,
        _ => 4,
    }
}

/// The code points from a byte that all have as many bytes as the first. There are at most as many
/// as a run has items, and none at the end.
// In the loop over the runs.
#[inline(always)]
pub(crate) fn alike_at(bytes: &[u8], at: usize) -> Alike
    requires { at ≤ length bytes.now }
    ensures alike { AreAlike bytes.now at result.len result.count }
    ensures len { (1 ≤ result.len) × (result.len ≤ 4) }
{
    let rest = &bytes[at..];
    let (len, count) = match rest.first() {
        None => (1, 0),
        Some(0..0x80) => (1, ascii_front(rest)),
        Some(0x80..0xE0) => (2, wide_front(rest, 2)),
        Some(0xE0..0xF0) => (3, wide_front(rest, 3)),
        Some(_) => (4, wide_front(rest, 4)),
    };
    Alike { len, count }
}

/// Counts the leading ASCII bytes. Mostly they are fewer than sixteen, which are seen at once.
#[inline(always)]
fn ascii_front(bytes: &[u8]) -> u16
    ensures { AreAlike bytes.now 0 1 result }
{
    if bytes.len() >= 16 {
        let others = others_in_16(bytes);
        if others != 0 {
            return others.trailing_zeros() as u16;
        }
    }
    at_most_a_run(ascii_run(bytes))
}

/// A count, limited to a run's items after its first.
#[inline(always)]
fn at_most_a_run(count: usize) -> u16
    ensures { result ≤ count }
{
    count.min(usize::from(u16::MAX)) as u16
}

/// A mask with a bit for each of the first sixteen bytes that isn't ASCII.
#[inline(always)]
fn others_in_16(bytes: &[u8]) -> u64
    requires { 16 ≤ length bytes.now }
    ensures { result ≡ mask_l (map (leb 0x80) (take 16 bytes.now)) }
{
    u8x16::from_slice(bytes)
        .simd_ge(Simd::splat(0x80))
        .to_bitmask()
}

/// Counts the leading code points of `len` bytes each, two or more. Mostly they are fewer than
/// begin in sixteen bytes, which are seen at once.
#[inline(always)]
fn wide_front(bytes: &[u8], len: usize) -> u16
    requires { (2 ≤ len) × (len ≤ 4) }
    ensures { AreAlike bytes.now 0 len result }
{
    if bytes.len() < 16 {
        return at_most_a_run(wide_run(bytes, len, 0));
    }
    let seen = front_in_16(bytes, len);
    if (seen + 1) * len <= 16 {
        return seen as u16;
    }
    at_most_a_run(wide_run(bytes, len, seen))
}

/// Counts the leading code points of `len` bytes each in the first sixteen bytes.
#[inline(always)]
fn front_in_16(bytes: &[u8], len: usize) -> usize
    requires room { 16 ≤ length bytes.now }
    requires len { (2 ≤ len) × (len ≤ 4) }
    ensures alike { AreAlike bytes.now 0 len result }
    ensures within { result * len ≤ 16 }
    ensures few { result ≤ 16 }
{
    let (low, high) = leads_of(len);
    let others = outside_in_16(bytes, low, high) & firsts_of(len);
    (others | BEHIND).trailing_zeros() as usize / len
}

/// A mask of the first sixteen bytes that are outside of a range. A byte is outside if it is below
/// `low`, or not below `high`.
#[inline(always)]
fn outside_in_16(bytes: &[u8], low: u8, high: u8) -> u64
    requires { 16 ≤ length bytes.now }
    ensures { result ≡ mask_l (map (λ b. nat_lt b low || nat_le high b) (take 16 bytes.now)) }
{
    let lanes = u8x16::from_slice(bytes);
    (lanes.simd_lt(Simd::splat(low)) | lanes.simd_ge(Simd::splat(high))).to_bitmask()
}

/// A mask of sixteen bytes with a bit wherever a code point begins. All code points have `len`
/// bytes.
#[inline(always)]
fn firsts_of(len: usize) -> u64
    requires { (2 ≤ len) × (len ≤ 4) }
    ensures { (k : ℕ) → k * len < 16 → bit_at result (k * len) ≡ 1 }
{
    match len {
        2 => 0x5555,
        3 => 0x9249,
        _ => 0x1111,
    }
}

/// The first bytes of code points of `len` bytes of UTF-8: from the first of these on, below the second.
#[inline(always)]
fn leads_of(len: usize) -> (u8, u8)
    requires { (2 ≤ len) × (len ≤ 4) }
    ensures { (b : ℕ) → result.0 ≤ b → b < result.1 → len ≡ continuation_len b + 1 }
{
    match len {
        2 => (0x80, 0xE0),
        3 => (0xE0, 0xF0),
        _ => (0xF0, 0xFF),
    }
}

/// Counts the leading code points of `len` bytes each, two or more. `seen` of them were seen.
// Once in a while: the loop over the runs has the registers to itself.
#[inline(never)]
fn wide_run(bytes: &[u8], len: usize, seen: usize) -> usize
    requires len { (2 ≤ len) × (len ≤ 4) }
    requires within { seen * len ≤ length bytes.now }
    requires seen { AreAlike bytes.now 0 len seen }
    ensures { AreAlike bytes.now 0 len result }
{
    let mut at = seen * len;
    let mut count = seen;
    'windows: while bytes.len() - at >= 16 {
        let here = front_in_16(&bytes[at..], len);
        at += here * len;
        count += here;
        if (here + 1) * len <= 16 {
            return count;
        }
    }
    count + wide_rest(&bytes[at..], len)
}

/// Like `wide_run`, one by one.
fn wide_rest(bytes: &[u8], len: usize) -> usize
    requires { (2 ≤ len) × (len ≤ 4) }
    ensures { AreAlike bytes.now 0 len result }
{
    let (low, high) = leads_of(len);
    let mut at = 0;
    let mut count = 0;
    'alike: while at < bytes.len() && low <= bytes[at] && bytes[at] < high {
        at += len;
        count += 1;
    }
    count
}
