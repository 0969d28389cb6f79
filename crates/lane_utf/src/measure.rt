//! Lengths of a text, by what each byte adds to them.
ghost use Rattle.std.specs.Prelude.{◌≡◌, ◌≤◌, ℕ, map, drop};
ghost use Rattle.lane_ascii.specs.Leads.{is_lead, one_lead};
ghost use Rattle.lane_utf.specs.Weights.{begins_four, begins_wide, pair_weight, pair-small, scalar-small, utf16_weight, utf16-small};
ghost use Rattle.lane_utf.specs.Widths.{total_width};
ghost use lib.Lanes.{mask_l};

use lane_ascii::{lead_of, leads_in, ones_behind};
use std::simd::prelude::*;

/// A length of a text as the sum of its bytes' weights.
pub(crate) trait Measure {
    ghost weight: { ℕ → ℕ };

    fn of_byte(byte: u8) -> usize
        ensures { result ≡ weight byte };

    fn of_64(lanes: u8x64) -> usize
        ensures { result ≡ total_width weight lanes };

    fn of_16(lanes: u8x16) -> usize
        ensures { result ≡ total_width weight lanes };

    fn behind(lanes: u8x16, skipped: usize) -> usize
        requires { skipped ≤ 16 }
        ensures { result ≡ total_width weight (drop skipped lanes) };

    ghost small: { (b : ℕ) → weight b ≤ 2 };
}

/// The lanes that begin a code point of four bytes.
#[inline(always)]
pub(crate) fn fours<const N: usize>(lanes: Simd<u8, N>) -> u64
    requires { N ≤ 64 }
    ensures { result ≡ mask_l (map begins_four lanes.entry) }
{
    lanes.simd_ge(Simd::splat(0xF0)).to_bitmask()
}

/// The lanes that begin a code point that isn't ASCII.
#[inline(always)]
fn wides<const N: usize>(lanes: Simd<u8, N>) -> u64
    requires { N ≤ 64 }
    ensures { result ≡ mask_l (map begins_wide lanes.entry) }
{
    lanes.simd_ge(Simd::splat(0xC0)).to_bitmask()
}

#[inline(always)]
fn scalars_of<const N: usize>(lanes: Simd<u8, N>) -> usize
    requires { N ≤ 64 }
    ensures { result ≡ total_width one_lead lanes.entry }
{
    leads_in(lanes).count_ones() as usize
}

#[inline(always)]
fn units_of<const N: usize>(lanes: Simd<u8, N>) -> usize
    requires { N ≤ 64 }
    ensures { result ≡ total_width utf16_weight lanes.entry }
{
    leads_in(lanes).count_ones() as usize + fours(lanes).count_ones() as usize
}

#[inline(always)]
fn pair_bytes_of<const N: usize>(lanes: Simd<u8, N>) -> usize
    requires { N ≤ 64 }
    ensures { result ≡ total_width pair_weight lanes.entry }
{
    leads_in(lanes).count_ones() as usize + wides(lanes).count_ones() as usize
}

/// Code points.
pub(crate) struct Scalars;

impl Measure for Scalars {
    ghost weight = { one_lead };

    #[inline(always)]
    fn of_byte(byte: u8) -> usize {
        lead_of(byte)
    }

    #[inline(always)]
    fn of_64(lanes: u8x64) -> usize {
        scalars_of(lanes)
    }

    #[inline(always)]
    fn of_16(lanes: u8x16) -> usize {
        scalars_of(lanes)
    }

    #[inline(always)]
    fn behind(lanes: u8x16, skipped: usize) -> usize {
        ones_behind(leads_in(lanes), skipped)
    }

    ghost small = { scalar-small };
}

/// Units of UTF-16.
pub(crate) struct Utf16Units;

impl Measure for Utf16Units {
    ghost weight = { utf16_weight };

    #[inline(always)]
    fn of_byte(byte: u8) -> usize {
        match byte {
            0..=0x7F => 1,
            0x80..=0xBF => 0,
            0xC0..=0xEF => 1,
            _ => 2,
        }
    }

    #[inline(always)]
    fn of_64(lanes: u8x64) -> usize {
        units_of(lanes)
    }

    #[inline(always)]
    fn of_16(lanes: u8x16) -> usize {
        units_of(lanes)
    }

    #[inline(always)]
    fn behind(lanes: u8x16, skipped: usize) -> usize {
        ones_behind(leads_in(lanes), skipped) + ones_behind(fours(lanes), skipped)
    }

    ghost small = { utf16-small };
}

/// Bytes of an encoding of pairs: one for ASCII, and two for all else.
pub(crate) struct PairBytes;

impl Measure for PairBytes {
    ghost weight = { pair_weight };

    #[inline(always)]
    fn of_byte(byte: u8) -> usize {
        match byte {
            0..=0x7F => 1,
            0x80..=0xBF => 0,
            _ => 2,
        }
    }

    #[inline(always)]
    fn of_64(lanes: u8x64) -> usize {
        pair_bytes_of(lanes)
    }

    #[inline(always)]
    fn of_16(lanes: u8x16) -> usize {
        pair_bytes_of(lanes)
    }

    #[inline(always)]
    fn behind(lanes: u8x16, skipped: usize) -> usize {
        ones_behind(leads_in(lanes), skipped) + ones_behind(wides(lanes), skipped)
    }

    ghost small = { pair-small };
}
