//! Runs of bytes that stand for themselves in a text of JSON.
ghost use Rattle.std.specs.Prelude.{◌≡◌, ◌+◌, ◌≤◌, length, drop, map};
ghost use Rattle.std.specs.{List.prefix_len, Simd.Lanes.mask_l};
ghost use Rattle.json.specs.Run.{is_stop, is_plain};

use std::simd::prelude::*;

/// The offset of the first quote, backslash or control byte from `from`, or the length.
pub(crate) fn plain_end(line: &[u8], from: usize) -> usize
    requires { from ≤ length line.now }
    ensures { result ≡ from + prefix_len is_plain (drop from line.now) }
{
    let mut at = from;
    'vectors: while line.len() - at >= 32 {
        let found = stops(u8x32::from_slice(&line[at..]));
        if found != 0 {
            return at + found.trailing_zeros() as usize;
        }
        at += 32;
    }
    end_of_plain(line, at)
}

/// A bit for each lane at which the run stops.
fn stops(lanes: u8x32) -> u64
    ensures { result ≡ mask_l (map is_stop lanes) }
{
    (lanes.simd_eq(u8x32::splat(b'"'))
        | lanes.simd_eq(u8x32::splat(b'\\'))
        | lanes.simd_lt(u8x32::splat(0x20))).to_bitmask()
}

/// Like `plain_end`, byte by byte.
fn end_of_plain(line: &[u8], from: usize) -> usize
    requires { from ≤ length line.now }
    ensures { result ≡ from + prefix_len is_plain (drop from line.now) }
{
    let mut at = from;
    'plain: while at < line.len() && line[at] != b'"' && line[at] != b'\\' && line[at] >= 0x20 {
        at += 1;
    }
    at
}
