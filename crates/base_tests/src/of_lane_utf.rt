//! Tests of what no clause states: worked rows, and each kernel as it is built. Each is compared
//! with the standard library or a plain loop. The lengths go up to 257, with what matters at each
//! place, at each of 64 alignments.

use lane_utf::{
    NeedsRoom, Select, ToUtf8Fault, count_pair_bytes, count_scalars, count_utf16,
    first_lone_surrogate, nth_scalar, nth_utf16, utf8_to_utf16, utf16_to_utf8, valid_run,
};
use oracle::{byte_loops, text_loops};
use std::ops::Fn;

mod examples;
mod fronts;

const LONGEST: usize = 257;

const ALIGNMENTS: usize = 64;

/// The longest character that is put at one place.
const ODD: usize = 8;

/// Whether a kernel agrees on every slice of letters with `odd` at one place.
fn agrees_on_bytes<F: Fn(&[u8]) -> bool>(odd: &[u8], agrees: F) -> bool
    requires { F.IsAlwaysCallable agrees }
{
    for start in 0..ALIGNMENTS {
        for place in 0..LONGEST {
            let mut room = [b'a'; LONGEST + ALIGNMENTS + ODD];
            let Some(there) = room.get_mut(start + place..start + place + odd.len()) else {
                return false;
            };
            there.copy_from_slice(odd);
            for length in place..=LONGEST {
                if !agrees(&room[start..start + length]) {
                    return false;
                }
            }
        }
    }
    true
}

/// Units `even` and `uneven` in turn.
fn in_turn(even: u16, uneven: u16) -> [u16; LONGEST + ALIGNMENTS] {
    let mut units = [even; LONGEST + ALIGNMENTS];
    for at in 0..(LONGEST + ALIGNMENTS) / 2 {
        units[2 * at + 1] = uneven;
    }
    units
}

/// Whether a kernel agrees on every slice of these units with `odd` at one place.
fn agrees_on_units<F: Fn(&[u16]) -> bool>(
    units: [u16; LONGEST + ALIGNMENTS],
    odd: u16,
    agrees: F,
) -> bool
    requires { F.IsAlwaysCallable agrees }
{
    for start in 0..ALIGNMENTS / 2 {
        for place in 0..LONGEST {
            let mut room = units;
            room[start + place] = odd;
            for length in place..=LONGEST {
                if !agrees(&room[start..start + length]) {
                    return false;
                }
            }
        }
    }
    true
}

fn utf16_width(c: char) -> usize {
    c.len_utf16()
}

fn pair_width(c: char) -> usize {
    if c.is_ascii() { 1 } else { 2 }
}

fn plain_count_pair_bytes(text: &str) -> usize {
    let mut count: usize = 0;
    for c in text.chars() {
        count = count.wrapping_add(pair_width(c));
    }
    count
}

/// Whether a text has the lengths that the standard library gives. So must bytes that aren't a
/// text.
fn counts_agree(bytes: &[u8]) -> bool {
    let Ok(text) = str::from_utf8(bytes) else {
        return true;
    };
    count_scalars(text) == text_loops::count_scalars(text)
        && count_utf16(text) == text_loops::count_utf16(text)
        && count_pair_bytes(text) == plain_count_pair_bytes(text)
}

fn plain_nth_scalar(text: &str, n: usize) -> Option<usize> {
    let mut left = n;
    for (at, _) in text.char_indices() {
        if left == 0 {
            return Some(at);
        }
        left -= 1;
    }
    if left == 0 { Some(text.len()) } else { None }
}

fn plain_nth<F: Fn(char) -> usize>(text: &str, n: usize, width: F) -> Select
    requires { F.IsAlwaysCallable width }
{
    let mut left = n;
    for (at, c) in text.char_indices() {
        if left == 0 {
            return Select::At(at);
        }
        let units = width(c);
        if left < units {
            return Select::Inside;
        }
        left -= units;
    }
    if left == 0 {
        Select::At(text.len())
    } else {
        Select::Past
    }
}

/// Whether all places of a number agree.
fn place_agrees(text: &str, n: usize) -> bool {
    nth_scalar(text, n) == plain_nth_scalar(text, n)
        && nth_utf16(text, n) == plain_nth(text, n, utf16_width)
}

/// Whether places of a text agree around its first character that isn't a letter. They are compared
/// at the end too.
fn places_agree(bytes: &[u8]) -> bool {
    let Ok(text) = str::from_utf8(bytes) else {
        return true;
    };
    let odd = byte_loops::ascii_run(bytes);
    place_agrees(text, odd)
        && place_agrees(text, odd.saturating_add(1))
        && place_agrees(text, text_loops::count_utf16(text))
}

/// Whether a room for a text's units, too short by one, is refused.
fn has_no_units(text: &str, needed: usize, units: &mut [u16]) -> bool {
    let Some(short) = needed.checked_sub(1) else {
        return true;
    };
    match units.get_mut(..short) {
        Some(room) => utf8_to_utf16(text, room) == Err(NeedsRoom(needed)),
        None => false,
    }
}

/// Like `has_no_units`, for the bytes of units.
fn has_no_bytes(units: &[u16], needed: usize, bytes: &mut [u8]) -> bool {
    let Some(short) = needed.checked_sub(1) else {
        return true;
    };
    match bytes.get_mut(..short) {
        Some(room) => utf16_to_utf8(units, room) == Err(ToUtf8Fault::NeedsRoom(needed)),
        None => false,
    }
}

/// Whether a text is converted to its units and back. What follows must be unchanged, and a room
/// too short by one must be refused and unchanged.
fn converts(bytes: &[u8]) -> bool {
    let Ok(text) = str::from_utf8(bytes) else {
        return true;
    };
    let mut units = [0xFFFF; LONGEST + 1];
    let mut plain = units;
    let needed = text_loops::count_utf16(text);
    if !has_no_units(text, needed, &mut units) || units != plain {
        return false;
    }
    text_loops::to_utf16(text, &mut plain);
    if utf8_to_utf16(text, &mut units) != Ok(needed) || units != plain {
        return false;
    }
    match units.get(..needed) {
        Some(units) => converts_back(units, bytes),
        None => false,
    }
}

fn converts_back(units: &[u16], wanted: &[u8]) -> bool {
    let mut bytes = [0xFF; LONGEST + 1];
    let mut plain = bytes;
    let needed = wanted.len();
    if !has_no_bytes(units, needed, &mut bytes) || bytes != plain {
        return false;
    }
    text_loops::to_utf8(units, &mut plain);
    utf16_to_utf8(units, &mut bytes) == Ok(needed)
        && bytes == plain
        && bytes.get(..needed) == Some(wanted)
}

/// Whether the first lone surrogate is where the standard library finds it.
fn lone_agrees(units: &[u16]) -> bool {
    first_lone_surrogate(units) == text_loops::first_lone_surrogate(units)
}

fn run_agrees(bytes: &[u8]) -> bool {
    valid_run(bytes) == text_loops::valid_run(bytes)
}

#[test]
fn texts_counted(rt: HostRuntime) {
    for odd in ["\u{E9}", "\u{6F22}", "\u{1F600}"] {
        assert!(rt; agrees_on_bytes(odd.as_bytes(), counts_agree));
    }
}

#[test]
fn places_found(rt: HostRuntime) {
    assert!(rt; agrees_on_bytes("\u{6F22}\u{1F600}".as_bytes(), places_agree));
}

#[test]
fn texts_converted(rt: HostRuntime) {
    assert!(rt; agrees_on_bytes("\u{E9}\u{10FFFF}".as_bytes(), converts));
}

#[test]
fn lone_surrogates_found(rt: HostRuntime) {
    let letters = in_turn(0x61, 0xE000);
    for odd in [0xD800, 0xDBFF, 0xDC00, 0xDFFF] {
        assert!(rt; agrees_on_units(letters, odd, lone_agrees));
    }
    let pairs = in_turn(0xD83D, 0xDE00);
    for odd in [0x61, 0xD83D, 0xDE00] {
        assert!(rt; agrees_on_units(pairs, odd, lone_agrees));
    }
}

#[test]
fn valid_runs(rt: HostRuntime) {
    for odd in [
        &b"\x80"[..],
        b"\xC0\x80",
        b"\xED\xA0\x80",
        b"\xE2\x82",
        b"\xF0\x9F\x98\x80",
    ] {
        assert!(rt; agrees_on_bytes(odd, run_agrees));
    }
}

/// A letter and a character that is a pair of surrogates.
const A_AND_A_PAIR: &str = "a\u{1F600}";

#[test]
fn places_inside_a_pair(rt: HostRuntime) {
    for (n, place) in [(2, Select::Inside), (3, Select::At(5)), (4, Select::Past)] {
        assert!(rt; nth_utf16(A_AND_A_PAIR, n) == place);
    }
    for (n, place) in [(2, Some(5)), (3, None)] {
        assert!(rt; nth_scalar(A_AND_A_PAIR, n) == place);
    }
}

/// A letter, and a character of one UTF-16 unit but two bytes of pairs.
const A_AND_TWO_BYTES: &str = "a\u{E9}";

#[test]
fn pair_bytes_counted(rt: HostRuntime) {
    assert!(rt; nth_utf16(A_AND_TWO_BYTES, 2) == Select::At(3));
    for (text, count) in [("", 0), (A_AND_TWO_BYTES, 3), (A_AND_A_PAIR, 3)] {
        assert!(rt; count_pair_bytes(text) == count);
    }
}

#[test]
fn room_for_units_that_is_too_short(rt: HostRuntime) {
    let mut units = [0x263A; 3];
    assert!(rt; utf8_to_utf16(A_AND_A_PAIR, &mut units[..2]) == Err(NeedsRoom(3)));
    assert!(rt; units == [0x263A; 3]);
    assert!(rt; utf8_to_utf16(A_AND_A_PAIR, &mut units) == Ok(3));
    assert!(rt; units == [0x0061, 0xD83D, 0xDE00]);
}

#[test]
fn units_that_are_refused(rt: HostRuntime) {
    let mut bytes = [0x7E; 3];
    let lone = utf16_to_utf8(&[0xD800, 0x0061], &mut bytes);
    assert!(rt; lone == Err(ToUtf8Fault::LoneSurrogate(0)));
    let short = utf16_to_utf8(&[0xD83D, 0xDE00], &mut bytes);
    assert!(rt; short == Err(ToUtf8Fault::NeedsRoom(4)));
    assert!(rt; bytes == [0x7E; 3]);
}

#[test]
fn runs_that_end(rt: HostRuntime) {
    assert!(rt; valid_run(&[0x61, 0xE2, 0x82]) == 1);
    assert!(rt; first_lone_surrogate(&[0xD83D, 0xDE00, 0xDE00]) == Some(2));
}
