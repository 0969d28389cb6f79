//! The lengths of the items of a text.
ghost use Rattle.std.specs.Prelude.{◌≡◌};
ghost use Rattle.decoder_core.specs.Bulk.{width_of};

use crate::bulk::Stride;

/// The length in bytes of an item that is this code point.
pub(crate) fn width_of(stride: Stride, c: char) -> usize
    ensures { result ≡ width_of stride c }
{
    match stride {
        Stride::Utf8 => c.len_utf8(),
        Stride::Utf16 if (c as u32) < 0x1_0000 => 2,
        Stride::Utf16 => 4,
        Stride::Pairs if c.is_ascii() => 1,
        Stride::Pairs => 2,
        Stride::Bytes => 1,
    }
}
