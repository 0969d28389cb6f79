//! The UTF-8 forms of units of UTF-16, some lanes at a time.
ghost use Rattle.std.specs.Prelude.{◌≡◌, ◌+◌, ◌/◌, ◌^◌, ◌<◌, ◌≤◌, true, length, map, bit_and};
ghost use Rattle.std.specs.List.{prefix_len};
ghost use Rattle.std.specs.Simd.Lanes.{put_chunk};
ghost use Rattle.lane_utf.specs.UnitRuns.{is_one, one_forms, three_forms};
ghost use Rattle.lane_utf.specs.UnitForms.{by_width, first_byte, second_byte, form_number};
ghost use Rattle.lane_utf.specs.Weights.{has_three};
ghost use Rattle.lane_utf.specs.Widths.{utf8_width};

use crate::utf8_length::{second_bytes, third_bytes};
use std::simd::prelude::*;

/// Whether all units are ASCII.
#[inline(always)]
pub(crate) fn are_ones<const N: usize>(lanes: Simd<u16, N>) -> bool
    requires { N ≤ 64 }
    ensures { result ≡ true → N ≡ prefix_len is_one lanes.entry }
{
    second_bytes(lanes) == 0
}

/// Whether all units stand for three bytes each.
#[inline(always)]
pub(crate) fn are_threes(lanes: u16x8) -> bool
    ensures { result ≡ true → 8 ≡ prefix_len has_three lanes }
{
    third_bytes(lanes) == 0xFF
}

/// Writes a byte for each unit: where the unit is ASCII, its form.
#[inline(always)]
pub(crate) fn put_ones<const N: usize>(lanes: Simd<u16, N>, bytes: &mut [u8], at: usize)
    requires few { N ≤ 64 }
    requires room { at + N ≤ length bytes.old }
    ensures { bytes.new ≡ put_chunk at bytes.old (one_forms lanes.entry) }
{
    part_of(lanes, 0, 0x7F, 0).copy_to_slice(&mut bytes[at..]);
}

/// Writes three bytes for each unit: where the unit stands for three, its form.
#[inline(always)]
pub(crate) fn put_threes(lanes: u16x8, bytes: &mut [u8], at: usize)
    requires { at + 24 ≤ length bytes.old }
    ensures { bytes.new ≡ put_chunk at bytes.old (three_forms lanes) }
{
    let first = part_of(lanes, 12, 0xF, 0xE0);
    let second = part_of(lanes, 6, 0x3F, 0x80);
    let third = part_of(lanes, 0, 0x3F, 0x80);
    let fronts: u8x16 = first.shuffle(
        second,
        [0, 1, 2, 3, 4, 5, 6, 7, 8, 9, 10, 11, 12, 13, 14, 15],
    );
    let ends: u8x16 = third.swizzle([0, 1, 2, 3, 4, 5, 6, 7, 0, 1, 2, 3, 4, 5, 6, 7]);
    let forms: u8x16 = fronts.shuffle(
        ends,
        [0, 8, 16, 1, 9, 17, 2, 10, 18, 3, 11, 19, 4, 12, 20, 5],
    );
    let behind: u8x8 = fronts.shuffle(ends, [13, 21, 6, 14, 22, 7, 15, 23]);
    forms.copy_to_slice(&mut bytes[at..]);
    behind.copy_to_slice(&mut bytes[at + 16..]);
}

/// The bytes of each unit's form, the first one lowest. The units aren't surrogates. Bytes that a shorter
/// form lacks don't matter.
#[inline(always)]
pub(crate) fn forms(lanes: u16x8) -> [u32; 8]
    ensures { result ≡ map form_number lanes }
{
    let fronts: u16x8 = firsts(lanes) + (seconds(lanes) << Simd::splat(8));
    let ends: u16x8 = bits_of(lanes, 0, 0x3F, 0x80);
    (fronts.cast::<u32>() + (ends.cast::<u32>() << Simd::splat(16))).to_array()
}

/// The first byte of each unit's form. The units aren't surrogates.
#[inline(always)]
fn firsts(lanes: u16x8) -> u16x8
    ensures { result ≡ map first_byte lanes }
{
    by_width(
        lanes,
        lanes,
        bits_of(lanes, 6, 0x1F, 0xC0),
        bits_of(lanes, 12, 0xF, 0xE0),
    )
}

/// The second byte of each unit's form, if it has one.
#[inline(always)]
fn seconds(lanes: u16x8) -> u16x8
    ensures { result ≡ map second_byte lanes }
{
    let trails = bits_of(lanes, 0, 0x3F, 0x80);
    by_width(lanes, trails, trails, bits_of(lanes, 6, 0x3F, 0x80))
}

/// The number of bytes of each unit's form. The units aren't surrogates.
#[inline(always)]
pub(crate) fn widths(lanes: u16x8) -> [u8; 8]
    ensures { result ≡ map utf8_width lanes }
{
    by_width(lanes, Simd::splat(1), Simd::splat(2), Simd::splat(3))
        .cast::<u8>()
        .to_array()
}

/// The lanes of one of three vectors, by how many bytes each unit's form has.
#[inline(always)]
fn by_width(lanes: u16x8, one: u16x8, two: u16x8, three: u16x8) -> u16x8
    ensures { result ≡ by_width lanes one two three }
{
    let wide = lanes.simd_lt(Simd::splat(0x800)).select(two, three);
    lanes.simd_lt(Simd::splat(0x80)).select(one, wide)
}

/// A byte of each unit's form. It has the unit's bits starting at number `shift`, after the bits
/// that mark the byte.
#[inline(always)]
fn part_of<const N: usize>(lanes: Simd<u16, N>, shift: u16, mask: u16, mark: u16) -> Simd<u8, N>
    requires few { N ≤ 64 }
    requires shift { shift < 16 }
    requires byte { mark + mask < 256 }
    ensures { result ≡ map (λ u. mark + bit_and (u / 2 ^ shift) mask) lanes.entry }
{
    bits_of(lanes, shift, mask, mark).cast()
}

/// Like `part_of`, in lanes of two bytes.
#[inline(always)]
fn bits_of<const N: usize>(lanes: Simd<u16, N>, shift: u16, mask: u16, mark: u16) -> Simd<u16, N>
    requires few { N ≤ 64 }
    requires shift { shift < 16 }
    requires byte { mark + mask < 256 }
    ensures { result ≡ map (λ u. mark + bit_and (u / 2 ^ shift) mask) lanes.entry }
{
    ((lanes >> Simd::splat(shift)) & Simd::splat(mask)) + Simd::splat(mark)
}
