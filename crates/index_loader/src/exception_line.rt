//! Lines of a file of exceptions.
ghost use Rattle.std.specs.Prelude.{◌≡◌, ℕ, false, min, IfErr, IfSome, Ok, Some, option_copied};
ghost use Rattle.index_loader.specs.Exceptions.{as_pair, bytes_behind, bytes_in, exception_in, exception_on, is_out_of_memory};
ghost use Rattle.index_loader.specs.Lines.{fields_of};
ghost use Rattle.index_loader.specs.Split.{parts_behind};

use crate::fault::ExceptionCause;
use crate::field::{number_in, scalar_in, stripped};
use crate::line::{is_skipped, split_at_byte, without_cr};
use crate::plain::{behind_0x, plain_number};
use enc_names::Scalar;

/// The two bytes of a number, where gb18030 has such. It stands for every number that counts as it
/// (see `number_in`).
fn as_pair(number: u32) -> Option<[u8; 2]>
    ensures { (n : ℕ) → number ≡ min n 0xFFFF_FFFF → result ≡ as_pair n }
{
    let lead = number / 0x100;
    let trail = number % 0x100;
    if matches!(lead, 0x81..=0xFE) && matches!(trail, 0x40..=0x7E | 0x80..=0xFE) {
        Some([lead as u8, trail as u8])
    } else {
        None
    }
}

/// The two bytes of a text of four hexadecimal digits.
fn bytes_in(text: &[u8]) -> Option<[u8; 2]>
    ensures { result ≡ bytes_in text.now }
{
    if text.len() != 4 {
        return None;
    }
    as_pair(number_in(16, text)?)
}

/// Reads two bytes from four digits before a TAB or the text's end, without spaces.
fn plain_bytes(text: &[u8]) -> Option<[u8; 2]>
    ensures { IfSome result (λ bytes. bytes_behind (fields_of text.now) ≡ Some bytes) }
{
    if text.len() > 4 && text[4] == b'\t' {
        return bytes_in(&text[..4]);
    }
    bytes_in(text)
}

/// Reads the exception of a line in the form that most lines have. That is a code point in digits
/// after `0x`, a TAB, and four digits; such a line is read in one pass. The result is `None` if the
/// line may have another form.
fn plain_exception(text: &[u8]) -> Option<(Scalar, [u8; 2])>
    ensures { IfSome result (λ exception. exception_in (fields_of text.now) ≡ Ok (Some exception)) }
{
    let digits = behind_0x(text)?;
    let (number, behind) = plain_number(16, digits)?;
    let bytes = plain_bytes(behind?)?;
    Some((Scalar::new(number)?, bytes))
}

/// Reads the bytes in the first field after the code point.
fn bytes_behind(behind: Option<&[u8]>) -> Option<[u8; 2]>
    ensures { result ≡ bytes_behind (parts_behind 0x09 (option_copied behind.entry)) }
{
    let (second, _) = split_at_byte(behind?, b'\t');
    bytes_in(stripped(second))
}

/// Reads the exception in the fields of a line, or returns the first fault.
fn exception_in(text: &[u8]) -> Result<Option<(Scalar, [u8; 2])>, ExceptionCause>
    ensures value { result ≡ exception_in (fields_of text.now) }
    ensures cause { IfErr result (λ cause. is_out_of_memory cause ≡ false) }
{
    let (first, behind) = split_at_byte(text, b'\t');
    let code_point = scalar_in(stripped(first)).ok_or(ExceptionCause::BadCodePoint)?;
    let bytes = bytes_behind(behind).ok_or(ExceptionCause::BadBytes)?;
    Ok(Some((code_point, bytes)))
}

/// Reads what a line holds: nothing, an exception, or the first fault.
pub(crate) fn exception_on(line: &[u8]) -> Result<Option<(Scalar, [u8; 2])>, ExceptionCause>
    ensures value { result ≡ exception_on line.now }
    ensures cause { IfErr result (λ cause. is_out_of_memory cause ≡ false) }
{
    let text = without_cr(line);
    if is_skipped(text) {
        return Ok(None);
    }
    match plain_exception(text) {
        Some(exception) => Ok(Some(exception)),
        None => exception_in(text),
    }
}
