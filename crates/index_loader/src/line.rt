//! Lines of an index file.
ghost use Rattle.std.specs.Prelude.{◌≡◌, ℕ, ◌<◌, ◌==◌, false, min, ◌∷◌, length, position, IfErr, IfOk, IfSome, IsTrue, option_copied};
ghost use Rattle.std.specs.List.{slice_split};
ghost use Rattle.std.specs.Str.Lines.{strip_carriage_return};
ghost use Rattle.index_loader.specs.File.{is_out_of_memory};
ghost use Rattle.index_loader.specs.Lines.{allows, code_point_in, fields_of, is_skipped, pair_in, pair_on, pair_with};
ghost use Rattle.index_loader.specs.Split.{parts_behind};

use crate::fault::IndexCause;
use crate::field::{number_in, scalar_in, stripped};
use crate::kind::IndexKind;
use crate::plain::plain_pair;
use crate::tens::Tens;
use enc_names::Scalar;
use memchr::memchr;

/// The place of the first of these bytes.
// In the loop over the lines of a file.
#[inline(always)]
fn place_of(text: &[u8], byte: u8) -> Option<usize>
    ensures { result ≡ position (λ b. b == byte) text.now }
{
    memchr(byte, text)
}

/// Splits a text at the first byte of this value, if there is one.
// In the loop over the lines of a file.
#[inline(always)]
pub(crate) fn split_at_byte(text: &[u8], byte: u8) -> (&[u8], Option<&[u8]>)
    ensures parts { slice_split (λ b. b == byte) text.now ≡ result.0.now ∷ parts_behind byte (option_copied result.1) }
    ensures shorter { IfSome result.1 (λ rest. length rest.now < length text.now) }
{
    match place_of(text, byte) {
        None => (text, None),
        Some(at) => (&text[..at], Some(&text[at + 1..])),
    }
}

/// The line without the CR at its end, if it has one.
// In the loop over the lines of a file.
#[inline(always)]
pub(crate) fn without_cr(line: &[u8]) -> &[u8]
    ensures { result.now ≡ strip_carriage_return line.now }
{
    match line {
        [rest @ .., b'\r'] => rest,
        _ => line,
    }
}

/// Whether a line holds nothing, being empty or a comment.
// In the loop over the lines of a file.
#[inline(always)]
pub(crate) fn is_skipped(line: &[u8]) -> bool
    ensures { result ≡ is_skipped line.now }
{
    matches!(line, [] | [b'#', ..])
}

/// Whether a file of this kind may have this pair.
// In the loop over the lines of a file.
#[inline(always)]
fn is_allowed(kind: IndexKind, pointer: u32, code_point: Scalar) -> bool
    ensures { result ≡ allows kind pointer code_point }
{
    let number = code_point.get();
    if kind.is_ranges() {
        let in_first_plane = pointer <= 39_419 && 0x80 <= number && number <= 0xFFFF;
        in_first_plane || (pointer == 189_000 && number == 0x10000)
    } else {
        pointer <= kind.greatest_pointer()
    }
}

/// Reads a pointer and its code point, or returns the first fault. The pointer represents every
/// number that counts as it (see `number_in`).
// In the loop over the lines of a file.
#[inline(always)]
fn pair_with(
    kind: IndexKind,
    pointer: u32,
    code_point: Option<Scalar>,
) -> Result<Option<(u32, Scalar)>, IndexCause>
    ensures value { (n : ℕ) → pointer ≡ min n 0xFFFF_FFFF → result ≡ pair_with kind n code_point }
    ensures allowed { IfOk result (λ o. IfSome o (λ pair. IsTrue (allows kind pair.0 pair.1))) }
    ensures cause { IfErr result (λ cause. is_out_of_memory cause ≡ false) }
{
    let code_point = code_point.ok_or(IndexCause::BadCodePoint)?;
    if is_allowed(kind, pointer, code_point) {
        Ok(Some((pointer, code_point)))
    } else if kind.is_ranges() {
        Err(IndexCause::BadRanges)
    } else {
        Err(IndexCause::PointerTooLarge)
    }
}

/// Reads the code point in the first field after the pointer.
fn code_point_behind(behind: Option<&[u8]>) -> Option<Scalar>
    ensures { result ≡ code_point_in (parts_behind 0x09 (option_copied behind.entry)) }
{
    let (second, _) = split_at_byte(behind?, b'\t');
    scalar_in(stripped(second))
}

/// Reads what a line holds: nothing, a pair, or the first fault.
// In the loop over the lines of a file.
#[inline(always)]
pub(crate) fn pair_on(
    kind: IndexKind,
    tens: &mut Tens,
    line: &[u8],
) -> Result<Option<(u32, Scalar)>, IndexCause>
    ensures value { result ≡ pair_on kind line.now }
    ensures allowed { IfOk result (λ o. IfSome o (λ pair. IsTrue (allows kind pair.0 pair.1))) }
    ensures cause { IfErr result (λ cause. is_out_of_memory cause ≡ false) }
{
    let text = without_cr(line);
    if is_skipped(text) {
        return Ok(None);
    }
    match plain_pair(tens, text) {
        Some((pointer, code_point)) => pair_with(kind, pointer, Some(code_point)),
        None => pair_in_fields(kind, text),
    }
}

/// Reads the pair in the fields of a line, or returns the first fault.
fn pair_in_fields(kind: IndexKind, text: &[u8]) -> Result<Option<(u32, Scalar)>, IndexCause>
    ensures value { result ≡ pair_in kind (fields_of text.now) }
    ensures allowed { IfOk result (λ o. IfSome o (λ pair. IsTrue (allows kind pair.0 pair.1))) }
    ensures cause { IfErr result (λ cause. is_out_of_memory cause ≡ false) }
{
    let (first, behind) = split_at_byte(text, b'\t');
    let pointer = number_in(10, stripped(first)).ok_or(IndexCause::BadPointer)?;
    pair_with(kind, pointer, code_point_behind(behind))
}
