//! Fields of a line: decimal pointers and hexadecimal code points.
ghost use Rattle.std.specs.Prelude.{◌≡◌, ◌≤◌, min, option_map};
ghost use Rattle.std.specs.Char.{digit_value};
ghost use Rattle.index_loader.specs.Lines.{behind_spaces, scalar_in, number_in, stripped};

use enc_names::Scalar;

/// The text without the spaces at its front.
// In the loop over the lines of a file.
#[inline(always)]
pub(crate) fn behind_spaces(mut text: &[u8]) -> &[u8]
    ensures { result.now ≡ behind_spaces text.entry.now }
{
    while let [b' ', rest @ ..] = text {
        text = rest;
    }
    text
}

/// The text without the spaces at both its ends.
pub(crate) fn stripped(text: &[u8]) -> &[u8]
    ensures { result.now ≡ stripped text.now }
{
    let mut text = behind_spaces(text);
    while let [rest @ .., b' '] = text {
        text = rest;
    }
    text
}

/// The value of each byte as a digit. It goes from 0 for `0` to 35 for `Z` and `z`, and is 36 for
/// other bytes.
const DIGIT_VALUES: [u8; 256] = [
    36, 36, 36, 36, 36, 36, 36, 36, 36, 36, 36, 36, 36, 36, 36, 36, 36, 36, 36, 36, 36, 36, 36, 36,
    36, 36, 36, 36, 36, 36, 36, 36, 36, 36, 36, 36, 36, 36, 36, 36, 36, 36, 36, 36, 36, 36, 36, 36,
    0, 1, 2, 3, 4, 5, 6, 7, 8, 9, 36, 36, 36, 36, 36, 36, 36, 10, 11, 12, 13, 14, 15, 16, 17, 18,
    19, 20, 21, 22, 23, 24, 25, 26, 27, 28, 29, 30, 31, 32, 33, 34, 35, 36, 36, 36, 36, 36, 36, 10,
    11, 12, 13, 14, 15, 16, 17, 18, 19, 20, 21, 22, 23, 24, 25, 26, 27, 28, 29, 30, 31, 32, 33, 34,
    35, 36, 36, 36, 36, 36, 36, 36, 36, 36, 36, 36, 36, 36, 36, 36, 36, 36, 36, 36, 36, 36, 36, 36,
    36, 36, 36, 36, 36, 36, 36, 36, 36, 36, 36, 36, 36, 36, 36, 36, 36, 36, 36, 36, 36, 36, 36, 36,
    36, 36, 36, 36, 36, 36, 36, 36, 36, 36, 36, 36, 36, 36, 36, 36, 36, 36, 36, 36, 36, 36, 36, 36,
    36, 36, 36, 36, 36, 36, 36, 36, 36, 36, 36, 36, 36, 36, 36, 36, 36, 36, 36, 36, 36, 36, 36, 36,
    36, 36, 36, 36, 36, 36, 36, 36, 36, 36, 36, 36, 36, 36, 36, 36, 36, 36, 36, 36, 36, 36, 36, 36,
    36, 36, 36, 36, 36, 36, 36, 36, 36, 36, 36, 36, 36, 36,
];

/// The value of a byte as a digit or a letter, or 36. It is read from a table, since branches on
/// digits are hard to predict.
// In the loop over the lines of a file.
#[inline(always)]
pub(crate) fn digit_value(byte: u8) -> u32
    ensures { result ≡ digit_value byte }
{
    u32::from(DIGIT_VALUES[usize::from(byte)])
}

/// Reads the number of a text of digits, in base 10 or 16. The result is `None` if the text is
/// empty or has another character. Numbers above `u32::MAX` count as `u32::MAX`: no pointer and no
/// code point is so large.
pub(crate) fn number_in(base: u32, text: &[u8]) -> Option<u32>
    requires low { 2 ≤ base }
    requires high { base ≤ 16 }
    ensures { result ≡ option_map (λ n. min n 0xFFFF_FFFF) (number_in base text.now) }
{
    if text.is_empty() {
        return None;
    }
    let mut number: u32 = 0;
    for byte in text {
        let digit = digit_value(*byte);
        if digit >= base {
            return None;
        }
        number = number.saturating_mul(base).saturating_add(digit);
    }
    Some(number)
}

/// The scalar value of a text of `0x` and hexadecimal digits.
pub(crate) fn scalar_in(text: &[u8]) -> Option<Scalar>
    ensures { result ≡ scalar_in text.now }
{
    let digits = text.strip_prefix(b"0x")?;
    Scalar::new(number_in(16, digits)?)
}
