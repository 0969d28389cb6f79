//! Neighbouring bytes swapped.
ghost use Rattle.std.specs.Prelude.{◌≡◌, ◌+◌, ◌≤◌, length};
ghost use Rattle.lane_ascii.specs.Pairs.{swapped, swapped_from};

use std::simd::prelude::*;

/// Swaps the bytes 2k and 2k + 1. This turns one byte order of UTF-16 into the other. An odd last
/// byte stays.
pub fn swap_pairs(bytes: &mut [u8])
    ensures { bytes.new ≡ swapped bytes.old }
{
    let mut at = 0;
    'steps: while bytes.len() - at >= 32 {
        swap_32(bytes, at);
        at += 32;
    }
    swap_rest(bytes, at);
}

/// Like `swap_pairs`, after the first bytes.
#[inline(always)]
fn swap_rest(bytes: &mut [u8], from: usize)
    requires { from ≤ length bytes.old }
    ensures { bytes.new ≡ swapped_from from bytes.old }
{
    let mut at = from;
    'eights: while bytes.len() - at >= 8 {
        swap_8(bytes, at);
        at += 8;
    }
    'pairs: while bytes.len() - at >= 2 {
        bytes.swap(at, at + 1);
        at += 2;
    }
}

#[inline(always)]
fn swap_32(bytes: &mut [u8], at: usize)
    requires { at + 32 ≤ length bytes.old }
    ensures len { length bytes.new ≡ length bytes.old }
    ensures swapped { swapped_from (at + 32) bytes.new ≡ swapped_from at bytes.old }
{
    u8x32::from_slice(&bytes[at..])
        .swizzle([
            1, 0, 3, 2, 5, 4, 7, 6, 9, 8, 11, 10, 13, 12, 15, 14, 17, 16, 19, 18, 21, 20, 23, 22,
            25, 24, 27, 26, 29, 28, 31, 30,
        ])
        .copy_to_slice(&mut bytes[at..]);
}

#[inline(always)]
fn swap_8(bytes: &mut [u8], at: usize)
    requires { at + 8 ≤ length bytes.old }
    ensures len { length bytes.new ≡ length bytes.old }
    ensures swapped { swapped_from (at + 8) bytes.new ≡ swapped_from at bytes.old }
{
    u8x8::from_slice(&bytes[at..])
        .swizzle([1, 0, 3, 2, 5, 4, 7, 6])
        .copy_to_slice(&mut bytes[at..]);
}
