//! Bytes that begin a code point of UTF-8: no trailing bytes (Unicode, table 3-7).
ghost use Rattle.std.specs.Prelude.{◌≡◌, ◌≤◌, map};
ghost use Rattle.lane_ascii.specs.Leads.{is_lead, one_lead};
ghost use lib.Lanes.{mask_l};

use std::simd::prelude::*;

/// 1 in each lane that begins a code point, and 0 in each other one.
// In the loops over the bytes of a text, as the others here.
#[inline(always)]
pub fn lead_ones<const N: usize>(lanes: Simd<u8, N>) -> Simd<u8, N>
    ensures { result ≡ map one_lead lanes.entry }
{
    let begins = lanes.simd_lt(Simd::splat(0x80)) | lanes.simd_ge(Simd::splat(0xC0));
    begins.select(Simd::splat(1), Simd::splat(0))
}

/// The lanes that begin a code point.
#[inline(always)]
pub fn leads_in<const N: usize>(lanes: Simd<u8, N>) -> u64
    requires { N ≤ 64 }
    ensures { result ≡ mask_l (map is_lead lanes.entry) }
{
    lead_ones(lanes).simd_ne(Simd::splat(0)).to_bitmask()
}

/// 1 where a byte begins a code point, and 0 elsewhere.
#[inline(always)]
pub fn lead_of(byte: u8) -> usize
    ensures { result ≡ one_lead byte }
{
    if byte < 0x80 || byte >= 0xC0 { 1 } else { 0 }
}
