//! The length in UTF-8 of units of UTF-16.
ghost use Rattle.std.specs.Prelude.{◌≡◌, ◌≤◌, length, map, drop};
ghost use Rattle.lane_utf.specs.Weights.{has_two, has_three, unit_weight};
ghost use Rattle.lane_utf.specs.Widths.{total_width};
ghost use lib.Lanes.{mask_l};

use std::simd::prelude::*;

/// The length of the units' UTF-8 form, if none is a lone surrogate.
pub(crate) fn utf8_length(units: &[u16]) -> usize
    ensures { result ≡ total_width unit_weight units.now }
{
    let mut total = 0;
    let mut at = 0;
    'whole: while units.len() - at >= 32 {
        total += weight_of(u16x32::from_slice(&units[at..]));
        at += 32;
    }
    total + length_from(units, at)
}

/// Like `utf8_length`, from a unit, unit by unit.
#[inline(always)]
fn length_from(units: &[u16], from: usize) -> usize
    requires { from ≤ length units.now }
    ensures { result ≡ total_width unit_weight (drop from units.now) }
{
    let mut total = 0;
    let mut at = from;
    'units: while at < units.len() {
        total += unit_weight(units[at]);
        at += 1;
    }
    total
}

/// The bytes of UTF-8 that a unit stands for.
#[inline(always)]
fn unit_weight(unit: u16) -> usize
    ensures { result ≡ unit_weight unit }
{
    match unit {
        0..=0x7F => 1,
        0x80..=0x7FF | 0xD800..=0xDFFF => 2,
        _ => 3,
    }
}

/// The bytes of UTF-8 that 32 units stand for.
#[inline(always)]
fn weight_of(lanes: u16x32) -> usize
    requires { length lanes ≡ 32 }
    ensures { result ≡ total_width unit_weight lanes }
{
    32 + second_bytes(lanes).count_ones() as usize + third_bytes(lanes).count_ones() as usize
}

/// The lanes that stand for a second byte.
#[inline(always)]
pub(crate) fn second_bytes<const N: usize>(lanes: Simd<u16, N>) -> u64
    requires { N ≤ 64 }
    ensures { result ≡ mask_l (map has_two lanes.entry) }
{
    lanes.simd_ge(Simd::splat(0x80)).to_bitmask()
}

/// The lanes that stand for a third byte.
#[inline(always)]
pub(crate) fn third_bytes<const N: usize>(lanes: Simd<u16, N>) -> u64
    requires { N ≤ 64 }
    ensures { result ≡ mask_l (map has_three lanes.entry) }
{
    let below = lanes.simd_ge(Simd::splat(0x800)) & lanes.simd_lt(Simd::splat(0xD800));
    (below | lanes.simd_ge(Simd::splat(0xE000))).to_bitmask()
}
