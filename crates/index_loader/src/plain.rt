//! Lines in the form that index files are written in: a pointer in digits, spaces before it or not, a
//! TAB, and a code point in digits after `0x`. Most lines have it, and are read in one pass.
ghost use Rattle.std.specs.Prelude.{◌≡◌, ◌+◌, ◌≤◌, ◌<◌, [], ◌∷◌, true, Some, IfSome, length, option_copied, take};
ghost use Rattle.std.specs.Char.{is_digit};
ghost use Rattle.std.specs.Int.{to_le_bytes, w32};
ghost use Rattle.std.specs.List.{list_all};
ghost use Rattle.std.specs.Str.Parse.{digits_value};
ghost use Rattle.index_loader.specs.declared.kind.IndexKind.{IndexKind};
ghost use Rattle.index_loader.specs.Lines.{behind_spaces, fields_of, pair_in, pair_with};
ghost use Rattle.index_loader.specs.Plain.{HasNumberFirst, IsNumberFirst, IsPointerFirst};
ghost use Rattle.index_loader.specs.Split.{parts_behind};

use crate::field::{behind_spaces, digit_value};
use crate::tens::Tens;
use enc_names::Scalar;

/// Reads the number in a text's first four bytes if all are digits. The second result is then four.
/// Otherwise the result is that of no digit. Most fields of index files have four digits or more.
// In the loop over the lines of a file.
#[inline(always)]
fn four_digits(base: u32, text: &[u8]) -> (u32, usize)
    requires low { 2 ≤ base }
    requires high { base ≤ 16 }
    ensures within { result.1 ≤ length text.now }
    ensures digits { list_all (λ b. is_digit b base) (take result.1 text.now) ≡ true }
    ensures value { result.0 ≡ digits_value base (take result.1 text.now) }
{
    let [first, second, third, fourth, ..] = text else {
        return (0, 0);
    };
    let first = digit_value(*first);
    let second = digit_value(*second);
    let third = digit_value(*third);
    let fourth = digit_value(*fourth);
    if first >= base || second >= base || third >= base || fourth >= base {
        return (0, 0);
    }
    (((first * base + second) * base + third) * base + fourth, 4)
}

/// Reads the number at the start of a text, and counts its digits. It takes no more digits than
/// fit.
// In the loop over the lines of a file.
#[inline(always)]
pub(crate) fn leading_number(base: u32, text: &[u8]) -> (u32, usize)
    requires low { 2 ≤ base }
    requires high { base ≤ 16 }
    ensures within { result.1 ≤ length text.now }
    ensures digits { list_all (λ b. is_digit b base) (take result.1 text.now) ≡ true }
    ensures value { result.0 ≡ digits_value base (take result.1 text.now) }
{
    let (mut number, mut at) = four_digits(base, text);
    while at < text.len() && number < 0x1000_0000 {
        let digit = digit_value(text[at]);
        if digit >= base {
            break;
        }
        number = number * base + digit;
        at += 1;
    }
    (number, at)
}

/// Reads the number before a TAB or the text's end. Nothing but digits may come before that.
/// Returns the number and the text after the TAB.
// In the loop over the lines of a file.
#[inline(always)]
pub(crate) fn plain_number(base: u32, text: &[u8]) -> Option<(u32, Option<&[u8]>)>
    requires low { 2 ≤ base }
    requires high { base ≤ 16 }
    ensures { IfSome result (λ found. IsNumberFirst base (fields_of text.now) found.0 (parts_behind 0x09 (option_copied found.1))) }
{
    let (number, len) = leading_number(base, text);
    if len == 0 {
        return None;
    }
    if len == text.len() {
        return Some((number, None));
    }
    if text[len] == b'\t' {
        Some((number, Some(&text[len + 1..])))
    } else {
        None
    }
}

/// The text after `0x`, if a text begins with it.
// In the loop over the lines of a file, where two comparisons cost less than a prefix's.
#[inline(always)]
pub(crate) fn behind_0x(text: &[u8]) -> Option<&[u8]>
    ensures { IfSome result (λ digits. text.now ≡ 0x30 ∷ 0x78 ∷ digits.now) }
{
    match text {
        [b'0', b'x', digits @ ..] => Some(digits),
        _ => None,
    }
}

/// Reads the digit at the start of four bytes, if TAB and `0x` follow. The first byte is the lowest,
/// and the check is one comparison of one number.
// In the loop over the lines of a file.
#[inline(always)]
fn last_digit(bytes: u32) -> Option<u32>
    ensures small { IfSome result (λ digit. digit < 10) }
    ensures bytes { IfSome result (λ digit. to_le_bytes w32 bytes ≡ (0x30 + digit) ∷ 0x09 ∷ 0x30 ∷ 0x78 ∷ []) }
{
    let digit = bytes.wrapping_sub(0x7830_0930);
    if digit < 10 { Some(digit) } else { None }
}

/// Reads the pointer of a line in that form, if it has five places. All rows of the large files
/// have five. Returns the pointer and the text after `0x`.
// In the loop over the lines of a file.
#[inline(always)]
fn pointer_of_five<'t>(tens: &mut Tens, text: &'t [u8]) -> Option<(u32, &'t [u8])>
    ensures { IfSome result (λ found. IsPointerFirst (behind_spaces text.now) found.0 found.1.now) }
{
    let [
        first,
        second,
        third,
        fourth,
        last,
        tab,
        zero,
        x,
        digits @ ..,
    ] = text
    else {
        return None;
    };
    let last = last_digit(u32::from_le_bytes([*last, *tab, *zero, *x]))?;
    let places = u32::from_le_bytes([*first, *second, *third, *fourth]);
    let number = tens.number(places)?;
    Some((number + last, digits))
}

/// Like `pointer_of_five`, for any line in that form.
fn pointer_of_any(text: &[u8]) -> Option<(u32, &[u8])>
    ensures { IfSome result (λ found. IsPointerFirst (behind_spaces text.now) found.0 found.1.now) }
{
    let (pointer, behind) = plain_number(10, behind_spaces(text))?;
    Some((pointer, behind_0x(behind?)?))
}

/// Reads the pointer at the start of a line in that form. It tries `pointer_of_five` first.
// In the loop over the lines of a file.
#[inline(always)]
fn pointer_of<'t>(tens: &mut Tens, text: &'t [u8]) -> Option<(u32, &'t [u8])>
    ensures { IfSome result (λ found. IsPointerFirst (behind_spaces text.now) found.0 found.1.now) }
{
    match pointer_of_five(tens, text) {
        Some(found) => Some(found),
        None => pointer_of_any(text),
    }
}

/// Reads the number before a TAB, if it has four digits, like most code points.
// In the loop over the lines of a file.
#[inline(always)]
fn hexadecimal_of_four(text: &[u8]) -> Option<u32>
    ensures { IfSome result (λ number. HasNumberFirst 16 (fields_of text.now) number) }
{
    let (number, len) = four_digits(16, text);
    if len == 4 && text.len() > 4 && text[4] == b'\t' {
        Some(number)
    } else {
        None
    }
}

/// Reads the number before a TAB or the text's end, of any length.
// In the loop over the lines of a file.
#[inline(always)]
fn hexadecimal(text: &[u8]) -> Option<u32>
    ensures { IfSome result (λ number. HasNumberFirst 16 (fields_of text.now) number) }
{
    match hexadecimal_of_four(text) {
        Some(number) => Some(number),
        None => Some(plain_number(16, text)?.0),
    }
}

/// Reads the pair of a line in that form, or returns `None` for another form.
// In the loop over the lines of a file.
#[inline(always)]
pub(crate) fn plain_pair(tens: &mut Tens, text: &[u8]) -> Option<(u32, Scalar)>
    ensures { IfSome result (λ pair. (kind : IndexKind) → pair_in kind (fields_of text.now) ≡ pair_with kind pair.0 (Some pair.1)) }
{
    let (pointer, digits) = pointer_of(tens, text)?;
    Some((pointer, Scalar::new(hexadecimal(digits)?)?))
}
