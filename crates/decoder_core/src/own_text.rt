//! Bytes that are the text that they stand for, all of them.
ghost use Rattle.std.specs.Prelude.{◌≡◌, ◌+◌, ◌-◌, ◌^◌, min, length, IfSome, IfNone};
ghost use Rattle.decoder_core.specs.Bulk.{IsOwnText};

use crate::counts::Meter;
use crate::decoder::Decoder;

/// Borrows the bytes as text, if the decoder knows that they are it (`text`). It must know at once
/// that each code point is an item as long as its UTF-8 form, and leaves this state unchanged
/// (`own`). The meter counts the bytes then (`counted`), and otherwise nothing (`uncounted`).
pub fn own_piece<'b, D: Decoder>(
    decoder: &D,
    state: D::State,
    bytes: &'b [u8],
    meter: &mut Meter,
) -> Option<&'b str>
    ensures text { IfSome result (λ text. text.now ≡ bytes.now) }
    ensures own { IfSome result (λ _. IsOwnText (D.table decoder.now) state bytes.now (length bytes.now)) }
    ensures counted { IfSome result (λ _. meter.new ≡ min (meter.old + length bytes.now) (2 ^ 64 - 1)) }
    ensures uncounted { IfNone result (meter.new ≡ meter.old) }
{
    if decoder.own_text(state, bytes) < bytes.len() {
        return None;
    }
    meter.count(bytes.len());
    // `own_text` ensures that these bytes are UTF-8.
    Some(unsafe { str::from_utf8_unchecked(bytes) })
}
