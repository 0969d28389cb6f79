//! Tests of what no clause states: worked rows, and each kernel as it is built, compared with a
//! plain loop. The lengths go up to 257, with the byte that matters at each place, at each of 64
//! alignments.
ghost use Rattle.std.specs.Prelude.{◌<◌, ◌≤◌};

use lane_ascii::{
    NeedsRoom, ascii_run, count_line_ends, narrow_ascii, nth_line_end, plain_run_iso, swap_pairs,
    widen,
};
use oracle::byte_loops;
use std::ops::Fn;

mod examples;

const LONGEST: usize = 257;

const ALIGNMENTS: usize = 64;

/// Whether a kernel agrees on every slice with `odd` at one place. All other bytes are `rest`. If
/// that place lies past the slice, all bytes are `rest`.
fn agrees_everywhere<F: Fn(&[u8]) -> bool>(odd: u8, rest: u8, agrees: F) -> bool
    requires { F.IsAlwaysCallable agrees }
{
    let mut room = [rest; LONGEST + ALIGNMENTS];
    for start in 0..ALIGNMENTS {
        for place in 0..LONGEST {
            room[start + place] = odd;
            for length in place..=LONGEST {
                if !agrees(&room[start..start + length]) {
                    return false;
                }
            }
            room[start + place] = rest;
        }
    }
    true
}

/// The bytes after a leading LF. After a CR, that LF isn't a mark.
fn behind_lf(bytes: &[u8]) -> &[u8] {
    match bytes {
        [b'\n', rest @ ..] => rest,
        _ => bytes,
    }
}

/// Whether marks are counted as by the plain loop, with and without a CR before.
fn counts_agree(bytes: &[u8]) -> bool {
    count_line_ends(bytes, false) == byte_loops::count_line_ends(bytes)
        && count_line_ends(bytes, true) == byte_loops::count_line_ends(behind_lf(bytes))
}

/// The mark of that number by the plain loop, after a CR.
fn plain_nth_behind_cr(bytes: &[u8], n: usize) -> Option<usize> {
    let rest = behind_lf(bytes);
    match byte_loops::nth_line_end(rest, n) {
        Some(at) => bytes.len().saturating_sub(rest.len()).checked_add(at),
        None => None,
    }
}

/// Whether the mark of that number is found where the plain loop finds it.
fn nth_agrees(bytes: &[u8], n: usize) -> bool {
    nth_line_end(bytes, false, n) == byte_loops::nth_line_end(bytes, n)
        && nth_line_end(bytes, true, n) == plain_nth_behind_cr(bytes, n)
}

/// Whether each byte is where the plain loop puts it.
fn swaps_pairs(bytes: &[u8]) -> bool {
    let (mut swapped, mut plain) = ([0; LONGEST], [0; LONGEST]);
    let length = bytes.len();
    let (Some(swapped), Some(plain)) = (swapped.get_mut(..length), plain.get_mut(..length)) else {
        return false;
    };
    swapped.copy_from_slice(bytes);
    plain.copy_from_slice(bytes);
    swap_pairs(swapped);
    byte_loops::swap_pairs(plain);
    *swapped == *plain
}

/// Whether a room too short by one is refused.
fn is_too_short(bytes: &[u8], units: &mut [u16]) -> bool {
    let Some(short) = bytes.len().checked_sub(1) else {
        return true;
    };
    match units.get_mut(..short) {
        Some(room) => widen(bytes, room) == Err(NeedsRoom(bytes.len())),
        None => false,
    }
}

/// Whether each byte becomes a unit and the next unit is unchanged. A room too short by one must be
/// refused and unchanged.
fn widens(bytes: &[u8]) -> bool {
    let mut units = [0xFFFF; LONGEST + 1];
    let mut plain = units;
    if !is_too_short(bytes, &mut units) || units != plain {
        return false;
    }
    byte_loops::widen(bytes, &mut plain);
    widen(bytes, &mut units) == Ok(bytes.len()) && units == plain
}

/// Whether a pair is an ASCII byte and a zero.
fn is_ascii_pair(pair: &[u8]) -> bool {
    match pair {
        [low, high] => *low < 0x80 && *high == 0,
        _ => false,
    }
}

/// Writes the low bytes of the leading blocks of 32 pairs that are ASCII. Returns their number.
fn plain_narrow(pairs: &[u8], text: &mut [u8]) -> usize {
    let mut count: usize = 0;
    for (block, place) in pairs.chunks_exact(64).zip(text.chunks_exact_mut(32)) {
        if !block.chunks_exact(2).all(is_ascii_pair) {
            break;
        }
        for (byte, low) in place.iter_mut().zip(block.iter().step_by(2)) {
            *byte = *low;
        }
        count = count.wrapping_add(32);
    }
    count
}

/// Whether the plain loop writes the same, with two sizes of room. There is room for all pairs, or
/// for a block less.
fn narrows(pairs: &[u8]) -> bool {
    for room in [LONGEST / 2, LONGEST / 2 - 32] {
        let (mut text, mut plain) = ([0xFF; LONGEST], [0xFF; LONGEST]);
        let count = plain_narrow(pairs, &mut plain[..room]);
        if narrow_ascii(pairs, &mut text[..room]) != count || text != plain {
            return false;
        }
    }
    true
}

#[test]
fn ascii_runs(rt: HostRuntime) {
    assert!(rt;
        agrees_everywhere(
            0x80,
            b'a',
            |bytes| ascii_run(bytes) == byte_loops::ascii_run(bytes)
        )
    );
    assert!(rt;
        agrees_everywhere(
            0xFF,
            0x7F,
            |bytes| ascii_run(bytes) == byte_loops::ascii_run(bytes)
        )
    );
}

#[test]
fn runs_without_shifts_and_escapes(rt: HostRuntime) {
    for odd in [0x0E, 0x0F, 0x1B, 0x80] {
        let agrees = |bytes: &[u8]| plain_run_iso(bytes) == byte_loops::plain_run_iso(bytes);
        assert!(rt; agrees_everywhere(odd, 0x0D, agrees));
    }
}

#[test]
fn line_ends_counted(rt: HostRuntime) {
    assert!(rt; agrees_everywhere(b'\n', b'a', counts_agree));
    assert!(rt; agrees_everywhere(b'\r', b'\n', counts_agree));
    assert!(rt; agrees_everywhere(b'\n', b'\r', counts_agree));
}

#[test]
fn line_ends_found(rt: HostRuntime) {
    assert!(rt;
        agrees_everywhere(
            b'\n',
            b'a',
            |bytes| nth_agrees(bytes, 0) && nth_agrees(bytes, 1)
        )
    );
    assert!(rt; agrees_everywhere(b'\r', b'\n', |bytes| nth_agrees(bytes, bytes.len() / 2)));
    assert!(rt; agrees_everywhere(b'a', b'\r', |bytes| nth_agrees(bytes, bytes.len() / 3)));
}

#[test]
fn pairs_swapped(rt: HostRuntime) {
    assert!(rt; agrees_everywhere(0xD8, 0x3D, swaps_pairs));
}

#[test]
fn bytes_widened(rt: HostRuntime) {
    assert!(rt; agrees_everywhere(0xFF, 0x01, widens));
}

#[test]
fn ascii_narrowed(rt: HostRuntime) {
    assert!(rt; agrees_everywhere(0x01, 0x00, narrows));
    assert!(rt; agrees_everywhere(0x80, 0x00, narrows));
}

/// Counts the letters that are narrowed, of 64 in UTF-16LE with another byte among them. There is
/// room for `room` bytes, and the other byte is at `place`.
fn letters_narrowed(room: usize, place: usize, byte: u8) -> usize
    requires room { room ≤ 64 }
    requires place { place < 128 }
{
    let mut pairs = [0; 128];
    for low in pairs.iter_mut().step_by(2) {
        *low = b'a';
    }
    pairs[place] = byte;
    let mut text = [0; 64];
    let count = narrow_ascii(&pairs, &mut text[..room]);
    if text.iter().filter(|byte| **byte == b'a').count() == count {
        count
    } else {
        usize::MAX
    }
}

#[test]
fn blocks_of_letters_narrowed(rt: HostRuntime) {
    assert!(rt; letters_narrowed(64, 0, b'a') == 64);
    // The low byte of the first and of the last pair of each block, and the high one.
    for (place, count) in [(0, 0), (62, 0), (64, 32), (126, 32)] {
        assert!(rt; letters_narrowed(64, place, 0x80) == count);
        assert!(rt; letters_narrowed(64, place + 1, 0x01) == count);
    }
    // Less room than for both blocks, and than for one.
    assert!(rt; letters_narrowed(63, 0, b'a') == 32 && letters_narrowed(31, 0, b'a') == 0);
}

#[test]
fn worked_runs_and_marks(rt: HostRuntime) {
    let mut letters = [b'a'; 65];
    letters[64] = 0x80;
    assert!(rt; ascii_run(&letters) == 64 && plain_run_iso(b"\x41\x0E") == 1);
    assert!(rt; count_line_ends(b"\n\r\n\r", true) == 2);
    assert!(rt; nth_line_end(b"\n\r\n\r", true, 1) == Some(3));
}

#[test]
fn odd_last_byte_stays(rt: HostRuntime) {
    let mut bytes = [1, 2, 3];
    swap_pairs(&mut bytes);
    assert!(rt; bytes == [2, 1, 3]);
}

#[test]
fn room_that_is_too_short(rt: HostRuntime) {
    let mut units = [0x263A];
    assert!(rt; widen(b"AB", &mut units) == Err(NeedsRoom(2)) && units == [0x263A]);
}
