//! The items of single bytes.
ghost use Rattle.std.specs.Prelude.{◌≡◌};
ghost use Rattle.iso2022jp.specs.Iso2022Jp.{one_or_error, ascii_item, roman_item, katakana_item};

use decoder_core::Item;
use enc_names::Scalar;

/// The item of a code point, or of null.
pub(crate) fn one_or_error(found: Option<Scalar>) -> Item
    ensures { result ≡ one_or_error found }
{
    match found {
        Some(code_point) => Item::One(code_point),
        None => Item::Error,
    }
}

/// A byte in the state ASCII.
pub(crate) fn ascii_item(byte: u8) -> Item
    ensures { result ≡ ascii_item byte }
{
    match byte {
        0x0E | 0x0F | 0x1B | 0x80..=0xFF => Item::Error,
        _ => Item::One(Scalar::from(char::from(byte))),
    }
}

/// A byte in the state Roman, which has a yen sign and an overline.
pub(crate) fn roman_item(byte: u8) -> Item
    ensures { result ≡ roman_item byte }
{
    match byte {
        0x5C => Item::One(Scalar::from('\u{A5}')),
        0x7E => Item::One(Scalar::from('\u{203E}')),
        _ => ascii_item(byte),
    }
}

/// A byte in the state katakana.
pub(crate) fn katakana_item(byte: u8) -> Item
    ensures { result ≡ katakana_item byte }
{
    match byte {
        0x21..=0x5F => one_or_error(Scalar::new(0xFF61 - 0x21 + u32::from(byte))),
        _ => Item::Error,
    }
}
