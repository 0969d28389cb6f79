//! The conversion from UTF-16 to UTF-8.
ghost use Rattle.std.specs.Prelude.{◌≡◌, ◌+◌, ◌<◌, ◌≤◌, ℕ, List, true, length, map, take, drop, slice_index_or, is_ok, OnOk, None, if◌then◌else◌};
ghost use Rattle.std.specs.Char.{encode_utf8, IsScalar};
ghost use Rattle.std.specs.Int.{to_le_bytes, w32};
ghost use Rattle.std.specs.Simd.Lanes.{put_chunk};
ghost use Rattle.std.specs.Str.{encode_utf8_all, all_scalars};
ghost use Rattle.lane_utf.specs.Conversions.{over_front, utf8_answer};
ghost use Rattle.lane_utf.specs.Front.{IsUtf16Front};
ghost use Rattle.lane_utf.specs.Progress.{HasRoom, IsUpTo};
ghost use Rattle.std.specs.List.{prefix_len};
ghost use Rattle.lane_utf.specs.UnitForms.{IsUnitForm};
ghost use Rattle.lane_utf.specs.UnitRuns.{is_one};
ghost use Rattle.lane_utf.specs.Utf16.{code_points, first_lone, is_surrogate, utf16_forms};
ghost use Rattle.lane_utf.specs.Widths.{utf8_width};
ghost use lib.Lanes.{mask_l};

use crate::faults::ToUtf8Fault;
use crate::surrogates::{first_lone_surrogate, is_lead, surrogates};
use crate::unit_runs::{are_ones, are_threes, forms, put_ones, put_threes, widths};
use crate::utf8_length::utf8_length;
use std::simd::prelude::*;

/// Writes the UTF-8 form of the units to the front of `bytes` (`written`). The form is that of
/// Unicode, chapter 3, D91 and D92. Returns its length in bytes (`answer`). The bytes after it are
/// unchanged. The code points are scalar values (`scalars`) whose UTF-16 form is the units
/// (`form`).
///
/// Refused, in this order, if a surrogate is in no pair, and if `bytes` is too short for the whole
/// form. Then nothing is written.
pub fn utf16_to_utf8(units: &[u16], bytes: &mut [u8]) -> Result<usize, ToUtf8Fault>
    ensures answer { result ≡ utf8_answer units.now (length bytes.old) }
    ensures written { bytes.new ≡ (if is_ok result
        then over_front (encode_utf8_all (code_points units.now)) bytes.old else bytes.old) }
    // The code points are the one list of scalar values that has these units as its form.
    ensures scalars { OnOk result (all_scalars (code_points units.now) ≡ true) }
    ensures form { OnOk result (utf16_forms (code_points units.now) ≡ units.now) }
{
    match first_lone_surrogate(units) {
        Some(at) => Err(ToUtf8Fault::LoneSurrogate(at)),
        None => convert(units, bytes),
    }
}

/// Writes the UTF-8 form if there is room for it.
fn convert(units: &[u16], bytes: &mut [u8]) -> Result<usize, ToUtf8Fault>
    requires { first_lone units.now ≡ None }
    ensures answer { result ≡ utf8_answer units.now (length bytes.old) }
    ensures written { bytes.new ≡ (if is_ok result
        then over_front (encode_utf8_all (code_points units.now)) bytes.old else bytes.old) }
{
    // Three bytes a unit are always enough, and then the length needn't be known before.
    if bytes.len() / 3 < units.len() {
        let needed = utf8_length(units);
        if bytes.len() < needed {
            return Err(ToUtf8Fault::NeedsRoom(needed));
        }
    }
    Ok(write(units, bytes))
}

/// The number of units that were read, and of bytes that were written.
#[derive(Clone, Copy)]
struct Reached {
    read: usize,
    written: usize,
}

/// Writes the UTF-8 form, for which there is room, and returns its length: run by run, and the last
/// units one by one.
fn write(units: &[u16], bytes: &mut [u8]) -> usize
    requires paired { first_lone units.now ≡ None }
    requires room { length (encode_utf8_all (code_points units.now)) ≤ length bytes.old }
    ensures length { result ≡ length (encode_utf8_all (code_points units.now)) }
    ensures bytes { bytes.new ≡ over_front (encode_utf8_all (code_points units.now)) bytes.old }
{
    let mut reached = Reached {
        read: 0,
        written: 0,
    };
    'runs: while units.len() - reached.read >= 24 {
        reached = put_run(units, reached, bytes);
    }
    'rest: while reached.read < units.len() {
        reached = put_last(units, reached, bytes);
    }
    reached.written
}

/// Writes the next units: sixteen if they are ASCII, otherwise eight without a surrogate, otherwise one
/// code point. The units that follow overwrite what is stored after them. Three vectors of units are
/// left, so even the widest store ends among the bytes that will be written.
#[inline(always)]
fn put_run(units: &[u16], from: Reached, bytes: &mut [u8]) -> Reached
    requires left { from.read + 24 ≤ length units.now }
    requires paired { first_lone (drop from.read units.now) ≡ None }
    requires room { HasRoom units.now from (length bytes.old) }
    ensures more { from.read < result.read }
    ensures up_to { (old : List ℕ) → IsUpTo units.now bytes.old old from → IsUpTo units.now bytes.new old result }
{
    if is_ascii_block::<16>(units, from.read) {
        return put_ascii_block::<16>(units, from, bytes);
    }
    let lanes = u16x8::from_slice(&units[from.read..]);
    if are_threes(lanes) {
        put_threes(lanes, bytes, from.written);
        return Reached {
            read: from.read + 8,
            written: from.written + 24,
        };
    }
    if surrogates(lanes) == 0 {
        return put_plain(units, from, lanes, bytes);
    }
    put_front(units, from, bytes)
}

/// Writes eight units that aren't surrogates, whatever the width of each form. A branch for each run of
/// one width would be unpredictable.
#[inline(always)]
fn put_plain(units: &[u16], from: Reached, lanes: u16x8, bytes: &mut [u8]) -> Reached
    requires left { from.read + 24 ≤ length units.now }
    requires lanes { lanes ≡ take 8 (drop from.read units.now) }
    requires plain { mask_l (map is_surrogate lanes) ≡ 0 }
    requires paired { first_lone (drop from.read units.now) ≡ None }
    requires room { HasRoom units.now from (length bytes.old) }
    ensures more { from.read < result.read }
    ensures up_to { (old : List ℕ) → IsUpTo units.now bytes.old old from → IsUpTo units.now bytes.new old result }
{
    let forms = forms(lanes);
    let widths = widths(lanes);
    let mut reached = from;
    let mut lane = 0;
    'lanes: while lane < 8 {
        reached = put_unit(units, reached, forms[lane], widths[lane], bytes);
        lane += 1;
    }
    reached
}

/// Writes the form of the next unit. It stores four bytes, and the first `width` of them are the form.
#[inline(always)]
fn put_unit(_units: &[u16], from: Reached, form: u32, width: u8, bytes: &mut [u8]) -> Reached
    requires left { from.read + 4 ≤ length _units.now }
    requires form { IsUnitForm (slice_index_or _units.now from.read 0) (to_le_bytes w32 form) width }
    requires paired { first_lone (drop from.read _units.now) ≡ None }
    requires room { HasRoom _units.now from (length bytes.old) }
    ensures read { result.read ≡ from.read + 1 }
    ensures paired { first_lone (drop result.read _units.now) ≡ None }
    ensures room { HasRoom _units.now result (length bytes.old) }
    ensures up_to { (old : List ℕ) → IsUpTo _units.now bytes.old old from → IsUpTo _units.now bytes.new old result }
{
    Simd::<u8, 4>::from_array(form.to_le_bytes()).copy_to_slice(&mut bytes[from.written..]);
    Reached {
        read: from.read + 1,
        written: from.written + usize::from(width),
    }
}

/// Writes the next of the last units: eight if they are ASCII, otherwise one code point. Nothing may
/// be stored after the last units.
#[inline(always)]
fn put_last(units: &[u16], from: Reached, bytes: &mut [u8]) -> Reached
    requires within { from.read < length units.now }
    requires paired { first_lone (drop from.read units.now) ≡ None }
    requires room { HasRoom units.now from (length bytes.old) }
    ensures more { from.read < result.read }
    ensures up_to { (old : List ℕ) → IsUpTo units.now bytes.old old from → IsUpTo units.now bytes.new old result }
{
    if units.len() - from.read >= 8 && is_ascii_block::<8>(units, from.read) {
        put_ascii_block::<8>(units, from, bytes)
    } else {
        put_front(units, from, bytes)
    }
}

/// Whether the next N units are ASCII.
#[inline(always)]
fn is_ascii_block<const N: usize>(units: &[u16], at: usize) -> bool
    requires few { N ≤ 64 }
    requires within { at + N ≤ length units.now }
    ensures { result ≡ true → N ≡ prefix_len is_one (take N (drop at units.now)) }
{
    are_ones(Simd::<u16, N>::from_slice(&units[at..]))
}

/// Writes N units at the front, which are ASCII. By themselves these need no count of units, for
/// which the next step would have to wait.
#[inline(always)]
fn put_ascii_block<const N: usize>(units: &[u16], from: Reached, bytes: &mut [u8]) -> Reached
    requires some { 0 < N }
    requires few { N ≤ 64 }
    requires within { from.read + N ≤ length units.now }
    requires ascii { N ≡ prefix_len is_one (take N (drop from.read units.now)) }
    requires paired { first_lone (drop from.read units.now) ≡ None }
    requires room { HasRoom units.now from (length bytes.old) }
    ensures more { from.read < result.read }
    ensures up_to { (old : List ℕ) → IsUpTo units.now bytes.old old from → IsUpTo units.now bytes.new old result }
{
    let lanes = Simd::<u16, N>::from_slice(&units[from.read..]);
    put_ones(lanes, bytes, from.written);
    Reached {
        read: from.read + N,
        written: from.written + N,
    }
}

/// Writes the code point at the front.
#[inline(always)]
fn put_front(units: &[u16], from: Reached, bytes: &mut [u8]) -> Reached
    requires within { from.read < length units.now }
    requires paired { first_lone (drop from.read units.now) ≡ None }
    requires room { HasRoom units.now from (length bytes.old) }
    ensures more { from.read < result.read }
    ensures up_to { (old : List ℕ) → IsUpTo units.now bytes.old old from → IsUpTo units.now bytes.new old result }
{
    let (code_point, width) = front(units, from.read);
    let written = put_scalar(bytes, from.written, code_point);
    Reached {
        read: from.read + width,
        written,
    }
}

/// Writes the bytes of a code point that has three.
#[inline(always)]
fn put_three(bytes: &mut [u8], at: usize, c: u32)
    requires least { 0x800 ≤ c }
    requires most { c < 0x10000 }
    requires room { at + 3 ≤ length bytes.old }
    ensures { bytes.new ≡ put_chunk at bytes.old (encode_utf8 c) }
{
    bytes[at] = 0xE0 + (c / 0x1000) as u8;
    bytes[at + 1] = 0x80 + (c / 0x40 % 0x40) as u8;
    bytes[at + 2] = 0x80 + (c % 0x40) as u8;
}

/// The code point at a unit, and how many units it takes.
#[inline(always)]
fn front(units: &[u16], at: usize) -> (u32, usize)
    requires within { at < length units.now }
    requires paired { first_lone (drop at units.now) ≡ None }
    ensures { IsUtf16Front (drop at units.now) result.0 result.1 }
{
    let unit = u32::from(units[at]);
    if !is_lead(units[at]) {
        return (unit, 1);
    }
    let trail = u32::from(units[at + 1]);
    (0x1_0000 + (unit - 0xD800) * 0x400 + (trail - 0xDC00), 2)
}

/// Writes the UTF-8 form of a code point that is a scalar value (`scalar`) at an index (`bytes`).
/// It is the form of Unicode, chapter 3, D92. `bytes` must have room for it (`room`). Returns the
/// index after it (`end`).
// In the loop over the code points of a text.
#[inline(always)]
pub fn put_scalar(bytes: &mut [u8], at: usize, c: u32) -> usize
    requires scalar { IsScalar c }
    requires room { at + utf8_width c ≤ length bytes.old }
    ensures end { result ≡ at + utf8_width c }
    ensures bytes { bytes.new ≡ put_chunk at bytes.old (encode_utf8 c) }
{
    if c < 0x80 {
        bytes[at] = c as u8;
        at + 1
    } else if c < 0x800 {
        bytes[at] = 0xC0 + (c / 0x40) as u8;
        bytes[at + 1] = 0x80 + (c % 0x40) as u8;
        at + 2
    } else if c < 0x1_0000 {
        put_three(bytes, at, c);
        at + 3
    } else {
        bytes[at] = 0xF0 + (c / 0x4_0000) as u8;
        bytes[at + 1] = 0x80 + (c / 0x1000 % 0x40) as u8;
        bytes[at + 2] = 0x80 + (c / 0x40 % 0x40) as u8;
        bytes[at + 3] = 0x80 + (c % 0x40) as u8;
        at + 4
    }
}
