//! ASCII in UTF-16LE as bytes.
ghost use Rattle.std.specs.Prelude.{◌≡◌, ◌+◌, ◌*◌, ◌≤◌, length, take, drop, true};
ghost use Rattle.std.specs.Str.{IsAscii};
ghost use Rattle.lane_ascii.specs.Pairs.{evens, spread};

use std::simd::prelude::*;

/// Writes ASCII at the start of UTF-16LE as bytes, and returns their number. They are the start of
/// `text` (`pairs`) and ASCII (`ascii`). It takes blocks of 32 units, so it stops at a block that
/// isn't ASCII throughout, or that has no room. The result is at most half of the length of `pairs`
/// (`within`), and at most that of `text` (`room`). The bytes after them in `text` are unchanged
/// (`rest`), and so is its length (`len`).
pub fn narrow_ascii(pairs: &[u8], text: &mut [u8]) -> usize
    ensures within { 2 * result ≤ length pairs.now }
    ensures room { result ≤ length text.new }
    ensures len { length text.new ≡ length text.old }
    ensures pairs { take (2 * result) pairs.now ≡ spread (take result text.new) }
    ensures ascii { IsAscii (take result text.new) }
    ensures rest { drop result text.new ≡ drop result text.old }
{
    let mut at = 0;
    'steps: while text.len() - at >= 32 && pairs.len() - 2 * at >= 64 {
        let lanes = u8x64::from_slice(&pairs[2 * at..]);
        if !is_ascii(lanes) {
            break;
        }
        low_bytes(lanes).copy_to_slice(&mut text[at..]);
        at += 32;
    }
    at
}

/// Whether each pair of lanes is an ASCII byte and a zero.
#[inline(always)]
fn is_ascii(lanes: u8x64) -> bool
    ensures pairs { result ≡ true → lanes ≡ spread (evens lanes) }
    ensures ascii { result ≡ true → IsAscii (evens lanes) }
{
    let others = Simd::from_array([
        0x80, 0xFF, 0x80, 0xFF, 0x80, 0xFF, 0x80, 0xFF, 0x80, 0xFF, 0x80, 0xFF, 0x80, 0xFF, 0x80,
        0xFF, 0x80, 0xFF, 0x80, 0xFF, 0x80, 0xFF, 0x80, 0xFF, 0x80, 0xFF, 0x80, 0xFF, 0x80, 0xFF,
        0x80, 0xFF, 0x80, 0xFF, 0x80, 0xFF, 0x80, 0xFF, 0x80, 0xFF, 0x80, 0xFF, 0x80, 0xFF, 0x80,
        0xFF, 0x80, 0xFF, 0x80, 0xFF, 0x80, 0xFF, 0x80, 0xFF, 0x80, 0xFF, 0x80, 0xFF, 0x80, 0xFF,
        0x80, 0xFF, 0x80, 0xFF,
    ]);
    (lanes & others).reduce_or() == 0
}

/// The first lane of each pair.
#[inline(always)]
fn low_bytes(lanes: u8x64) -> u8x32
    ensures { result ≡ evens lanes }
{
    lanes.swizzle([
        0, 2, 4, 6, 8, 10, 12, 14, 16, 18, 20, 22, 24, 26, 28, 30, 32, 34, 36, 38, 40, 42, 44, 46,
        48, 50, 52, 54, 56, 58, 60, 62,
    ])
}
