//! UTF-8 that is its own text.
ghost use Rattle.std.specs.Prelude.{◌≡◌, ◌≤◌, length, take};
ghost use Rattle.std.specs.Str.{IsUtf8};
ghost use Rattle.decoder_core.specs.{Bulk.IsOwnText, Utf8.utf8, Utf8.utf8_start};

use crate::run_bulk::LONGEST_RUN;
use lane_utf::valid_run;

/// Counts the leading bytes of well-formed UTF-8, if nothing is pending.
// In the loop over the bytes.
#[inline(always)]
pub(crate) fn utf8_own(bytes: &[u8]) -> usize
    ensures { IsOwnText utf8 utf8_start bytes.now result }
{
    parts_run(&bytes[..bytes.len().min(LONGEST_RUN)])
}

/// Counts the leading bytes of well-formed UTF-8. They are tested in parts, each of them once,
/// since a part with a fault is read to its end before the fault is looked for.
#[inline(always)]
fn parts_run(bytes: &[u8]) -> usize
    ensures within { result ≤ length bytes.now }
    ensures valid { IsUtf8 (take result bytes.now) }
{
    let mut valid = 0;
    'parts: while valid < bytes.len() {
        let rest = &bytes[valid..];
        let end = part_end(rest);
        let run = valid_run(&rest[..end]);
        valid += run;
        if run == 0 || run < end {
            break;
        }
    }
    valid
}

/// The end of the part: before a character that would continue past 1024 bytes, or past the bytes
/// at hand. A check of a part that ends inside a character looks for the fault byte by byte.
#[inline(always)]
fn part_end(bytes: &[u8]) -> usize
    ensures { result ≤ length bytes.now }
{
    match bytes.get(1021..1025) {
        Some([_, _, _, behind]) if !is_trail(*behind) => 1024,
        Some([_, _, last, _]) if !is_trail(*last) => 1023,
        Some([_, before, _, _]) if !is_trail(*before) => 1022,
        Some(_) => 1021,
        None => whole_end(bytes),
    }
}

/// The end of the last character that the end of the bytes doesn't cut short.
#[inline(always)]
fn whole_end(bytes: &[u8]) -> usize
    ensures { result ≤ length bytes.now }
{
    match bytes {
        [.., 0xC0..=0xFF] => bytes.len() - 1,
        [.., 0xE0..=0xFF, _] => bytes.len() - 2,
        [.., 0xF0..=0xFF, _, _] => bytes.len() - 3,
        _ => bytes.len(),
    }
}

/// Whether the byte is a character's second byte or a later one.
#[inline(always)]
fn is_trail(byte: u8) -> bool {
    matches!(byte, 0x80..=0xBF)
}
