//! The conversion from UTF-8 to UTF-16.
ghost use Rattle.std.specs.Prelude.{◌≡◌, ◌+◌, ◌<◌, ◌≤◌, true, length, drop, take, is_ok, if◌then◌else◌};
ghost use Rattle.std.specs.Char.{IsScalar};
ghost use Rattle.std.specs.Simd.Lanes.{put_chunk};
ghost use Rattle.std.specs.Str.{chars, IsAscii, IsUtf8};
ghost use Rattle.lane_utf.specs.Conversions.{over_front, utf16_answer};
ghost use Rattle.lane_utf.specs.Next.{IsUtf8Front};
ghost use Rattle.lane_utf.specs.Utf16.{utf16_form, utf16_forms};
ghost use Rattle.lane_utf.specs.Widths.{utf16_width, total_width};

use crate::counts::count_utf16;
use lane_ascii::NeedsRoom;
use std::simd::prelude::*;

/// Writes the UTF-16 form of the text to the front of `units` (`written`). It is the form of
/// Unicode, chapter 3, D91. Returns its length in units (`answer`). The units after it are
/// unchanged.
///
/// Refused if `units` is too short for the whole form. Then nothing is written.
pub fn utf8_to_utf16(text: &str, units: &mut [u16]) -> Result<usize, NeedsRoom>
    ensures answer { result
        ≡ utf16_answer (total_width utf16_width (chars text.now)) (length units.old) }
    ensures written { units.new ≡ (if is_ok result
        then over_front (utf16_forms (chars text.now)) units.old else units.old) }
{
    let needed = count_utf16(text);
    if units.len() < needed {
        return Err(NeedsRoom(needed));
    }
    write(text.as_bytes(), units);
    Ok(needed)
}

/// Writes the UTF-16 form, for which there is room: ASCII bytes by blocks of sixteen, others code
/// point by code point until the next block.
fn write(bytes: &[u8], units: &mut [u16])
    requires text { IsUtf8 bytes.now }
    requires room { length (utf16_forms (chars bytes.now)) ≤ length units.old }
    ensures { units.new ≡ over_front (utf16_forms (chars bytes.now)) units.old }
{
    let mut read = 0;
    let mut written = 0;
    let mut tested = 0;
    'text: while read < bytes.len() {
        if read >= tested && bytes.len() - read >= 16 {
            if is_ascii_block(bytes, read) {
                widen(bytes, read, units, written);
                read += 16;
                written += 16;
                continue;
            }
            tested = read + 16;
        }
        let (code_point, width) = next(bytes, read);
        written = put(units, written, code_point);
        read += width;
    }
}

/// Whether the next sixteen bytes are ASCII bytes.
#[inline(always)]
fn is_ascii_block(bytes: &[u8], at: usize) -> bool
    requires { at + 16 ≤ length bytes.now }
    ensures { result ≡ true → IsAscii (take 16 (drop at bytes.now)) }
{
    u8x16::from_slice(&bytes[at..])
        .simd_ge(u8x16::splat(0x80))
        .to_bitmask()
        == 0
}

/// Writes the next sixteen bytes, each as a unit.
#[inline(always)]
fn widen(bytes: &[u8], read: usize, units: &mut [u16], written: usize)
    requires bytes { read + 16 ≤ length bytes.now }
    requires units { written + 16 ≤ length units.old }
    ensures { units.new ≡ put_chunk written units.old (take 16 (drop read bytes.now)) }
{
    let wide: u16x16 = u8x16::from_slice(&bytes[read..]).cast();
    wide.copy_to_slice(&mut units[written..]);
}

/// The code point at a byte, and how many bytes it takes. The bits of a byte are taken by its place
/// (Unicode, table 3-6).
#[inline(always)]
fn next(bytes: &[u8], at: usize) -> (u32, usize)
    requires within { at < length bytes.now }
    requires text { IsUtf8 (drop at bytes.now) }
    ensures { IsUtf8Front (drop at bytes.now) result.0 result.1 }
{
    let first = u32::from(bytes[at]);
    if first < 0x80 {
        return (first, 1);
    }
    let second = u32::from(bytes[at + 1]) % 0x40;
    if first < 0xE0 {
        return (first % 0x20 * 0x40 + second, 2);
    }
    let third = u32::from(bytes[at + 2]) % 0x40;
    if first < 0xF0 {
        return (first % 0x10 * 0x1000 + second * 0x40 + third, 3);
    }
    let fourth = u32::from(bytes[at + 3]) % 0x40;
    (
        first % 8 * 0x4_0000 + second * 0x1000 + third * 0x40 + fourth,
        4,
    )
}

/// Writes the units of a code point, and returns the index after them.
#[inline(always)]
fn put(units: &mut [u16], at: usize, c: u32) -> usize
    requires scalar { IsScalar c }
    requires room { at + utf16_width c ≤ length units.old }
    ensures end { result ≡ at + utf16_width c }
    ensures units { units.new ≡ put_chunk at units.old (utf16_form c) }
{
    if c < 0x1_0000 {
        units[at] = c as u16;
        return at + 1;
    }
    units[at] = 0xD800 + ((c - 0x1_0000) / 0x400) as u16;
    units[at + 1] = 0xDC00 + ((c - 0x1_0000) % 0x400) as u16;
    at + 2
}
