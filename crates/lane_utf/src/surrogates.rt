//! Surrogates that are in no pair.
ghost use Rattle.std.specs.Prelude.{◌≡◌, ◌+◌, ◌-◌, ◌≤◌, true, length, map, slice_index, take, drop, None, IfSome};
ghost use Rattle.lane_utf.specs.Scan.{lone_from, Matched};
ghost use Rattle.lane_utf.specs.Utf16.{is_lead, is_surrogate, is_trail, first_lone};
ghost use lib.Lanes.{mask_l};

use std::simd::prelude::*;

/// The index of the first lone surrogate (`first`). That is a lead that no trail follows, or a
/// trail that no lead precedes (Unicode, chapter 3, D75). The units before it have none, and are
/// well formed by themselves (`front`).
pub fn first_lone_surrogate(units: &[u16]) -> Option<usize>
    ensures first { result ≡ first_lone units.now }
    ensures front { IfSome result (λ at. first_lone (take at units.now) ≡ None) }
{
    if units.is_empty() {
        return None;
    }
    if is_trail(units[0]) {
        return Some(0);
    }
    let mut at = 1;
    'whole: while units.len() - at >= 32 && is_matched::<32>(units, at) {
        at += 32;
    }
    'steps: while units.len() - at >= 8 && is_matched::<8>(units, at) {
        at += 8;
    }
    scan(units, at, is_lead(units[at - 1]))
}

/// Whether trails are matched: each of the next N units is a trail exactly if the previous one is a
/// lead.
#[inline(always)]
fn is_matched<const N: usize>(units: &[u16], at: usize) -> bool
    requires few { N ≤ 64 }
    requires before { 1 ≤ at }
    requires within { at + N ≤ length units.now }
    ensures { result ≡ true → Matched (is_lead (slice_index units.now (at - 1))) (take N (drop at units.now)) }
{
    let lanes = Simd::<u16, N>::from_slice(&units[at..]);
    if surrogates(lanes) == 0 {
        return !is_lead(units[at - 1]);
    }
    let here = trails(lanes);
    let before = leads(Simd::<u16, N>::from_slice(&units[at - 1..]));
    here == before
}

/// The lanes that are surrogates: most texts have none, and this is seen by one comparison.
#[inline(always)]
pub(crate) fn surrogates<const N: usize>(lanes: Simd<u16, N>) -> u64
    requires { N ≤ 64 }
    ensures { result ≡ mask_l (map is_surrogate lanes.entry) }
{
    let highest = lanes >> Simd::splat(11);
    highest.simd_eq(Simd::splat(0xD800 >> 11)).to_bitmask()
}

/// The lanes that lead a pair.
#[inline(always)]
fn leads<const N: usize>(lanes: Simd<u16, N>) -> u64
    requires { N ≤ 64 }
    ensures { result ≡ mask_l (map is_lead lanes.entry) }
{
    (lanes.simd_ge(Simd::splat(0xD800)) & lanes.simd_lt(Simd::splat(0xDC00))).to_bitmask()
}

/// The lanes that trail a pair.
#[inline(always)]
fn trails<const N: usize>(lanes: Simd<u16, N>) -> u64
    requires { N ≤ 64 }
    ensures { result ≡ mask_l (map is_trail lanes.entry) }
{
    (lanes.simd_ge(Simd::splat(0xDC00)) & lanes.simd_lt(Simd::splat(0xE000))).to_bitmask()
}

/// Whether the unit leads a pair.
#[inline(always)]
pub(crate) fn is_lead(unit: u16) -> bool
    ensures { result ≡ is_lead unit }
{
    0xD800 <= unit && unit < 0xDC00
}

/// Whether the unit trails a pair.
#[inline(always)]
pub(crate) fn is_trail(unit: u16) -> bool
    ensures { result ≡ is_trail unit }
{
    0xDC00 <= unit && unit < 0xE000
}

/// The first lone surrogate at a unit or after it. `pending` says whether the unit before is a
/// lead.
fn scan(units: &[u16], from: usize, pending: bool) -> Option<usize>
    requires within { from ≤ length units.now }
    requires before { pending ≡ true → 1 ≤ from }
    ensures { result ≡ lone_from pending from (drop from units.now) }
{
    let mut at = from;
    let mut after_lead = pending;
    'units: while at < units.len() {
        let unit = units[at];
        if is_trail(unit) != after_lead {
            return Some(if after_lead { at - 1 } else { at });
        }
        after_lead = is_lead(unit);
        at += 1;
    }
    if after_lead { Some(at - 1) } else { None }
}
