//! Classes of bytes, tested byte by byte and lane by lane.
ghost use Rattle.std.specs.Prelude.{◌≡◌, ◌≤◌, ℕ, Bool, not, map};
ghost use Rattle.lane_ascii.specs.Runs.{is_ascii, is_plain};
ghost use lib.Lanes.{mask_l};

use std::simd::prelude::*;

/// A class of bytes. The masks have a bit for each lane that isn't of the class.
pub(crate) trait Class {
    ghost holds: { ℕ → Bool };

    fn has(byte: u8) -> bool
        ensures { result ≡ holds byte };

    fn others_of_64(lanes: u8x64) -> u64
        ensures { result ≡ mask_l (map (λ b. not (holds b)) lanes) };

    fn others_of_16(lanes: u8x16) -> u64
        ensures { result ≡ mask_l (map (λ b. not (holds b)) lanes) };

    fn others_of_8(lanes: u8x8) -> u64
        ensures { result ≡ mask_l (map (λ b. not (holds b)) lanes) };
}

/// ASCII bytes.
pub(crate) struct Ascii;

#[inline(always)]
fn above_ascii<const N: usize>(lanes: Simd<u8, N>) -> u64
    requires { N ≤ 64 }
    ensures { result ≡ mask_l (map (λ b. not (is_ascii b)) lanes.entry) }
{
    lanes.simd_ge(Simd::splat(0x80)).to_bitmask()
}

impl Class for Ascii {
    ghost holds = { is_ascii };

    #[inline(always)]
    fn has(byte: u8) -> bool {
        byte < 0x80
    }

    #[inline(always)]
    fn others_of_64(lanes: u8x64) -> u64 {
        above_ascii(lanes)
    }

    #[inline(always)]
    fn others_of_16(lanes: u8x16) -> u64 {
        above_ascii(lanes)
    }

    #[inline(always)]
    fn others_of_8(lanes: u8x8) -> u64 {
        above_ascii(lanes)
    }
}

/// ASCII bytes that are neither a shift nor an escape.
pub(crate) struct Plain;

#[inline(always)]
fn not_plain<const N: usize>(lanes: Simd<u8, N>) -> u64
    requires { N ≤ 64 }
    ensures { result ≡ mask_l (map (λ b. not (is_plain b)) lanes.entry) }
{
    // SO and SI differ in their lowest bit alone.
    let shifts = (lanes & Simd::splat(0xFE)).simd_eq(Simd::splat(0x0E));
    let escapes = lanes.simd_eq(Simd::splat(0x1B));
    (lanes.simd_ge(Simd::splat(0x80)) | shifts | escapes).to_bitmask()
}

impl Class for Plain {
    ghost holds = { is_plain };

    #[inline(always)]
    fn has(byte: u8) -> bool {
        byte < 0x80 && byte != 0x0E && byte != 0x0F && byte != 0x1B
    }

    #[inline(always)]
    fn others_of_64(lanes: u8x64) -> u64 {
        not_plain(lanes)
    }

    #[inline(always)]
    fn others_of_16(lanes: u8x16) -> u64 {
        not_plain(lanes)
    }

    #[inline(always)]
    fn others_of_8(lanes: u8x8) -> u64 {
        not_plain(lanes)
    }
}
