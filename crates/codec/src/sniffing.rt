//! The look for a byte order mark.
ghost use Rattle.std.specs.Prelude.{◌≡◌};
ghost use Rattle.decoder_core.specs.Steps.{bytes_of};
ghost use Rattle.codec.specs.Sniffing.{sniffing};

use crate::prefix::Prefix;
use crate::state::AnyState;
use decoder_core::{Answer, ByteOrder, Few, Handled, Handler, Utf8Decoder, Utf16Decoder};

/// The decoder of UTF-16BE.
pub const UTF_16BE: Utf16Decoder = Utf16Decoder {
    order: ByteOrder::BigEndian,
};

/// The decoder of UTF-16LE.
pub const UTF_16LE: Utf16Decoder = Utf16Decoder {
    order: ByteOrder::LittleEndian,
};

/// Takes a turn after the first bytes of a document. `start` is the first state of the declared
/// encoding.
pub(crate) fn sniffing_turn(start: AnyState, prefix: Prefix, byte: Option<u8>) -> Handled<AnyState>
    ensures state { result.state ≡ (sniffing start prefix byte).state }
    ensures answer { result.answer ≡ (sniffing start prefix byte).answer }
    ensures back { bytes_of result.back ≡ (sniffing start prefix byte).back }
{
    let Some(byte) = byte else {
        return goes_on(start, prefix.bytes());
    };
    match (prefix, byte) {
        (Prefix::Nothing, 0xEF) => goes_on(AnyState::Sniffing(Prefix::Ef), Few::Zero),
        (Prefix::Nothing, 0xFE) => goes_on(AnyState::Sniffing(Prefix::Fe), Few::Zero),
        (Prefix::Nothing, 0xFF) => goes_on(AnyState::Sniffing(Prefix::Ff), Few::Zero),
        (Prefix::Ef, 0xBB) => goes_on(AnyState::Sniffing(Prefix::EfBb), Few::Zero),
        (Prefix::EfBb, 0xBF) => goes_on(AnyState::Utf8(Utf8Decoder.start_state()), Few::Zero),
        (Prefix::Fe, 0xFF) => goes_on(AnyState::Utf16Be(UTF_16BE.start_state()), Few::Zero),
        (Prefix::Ff, 0xFE) => goes_on(AnyState::Utf16Le(UTF_16LE.start_state()), Few::Zero),
        _ => goes_on(start, prefix.with(byte)),
    }
}

/// A turn without an item.
fn goes_on(state: AnyState, back: Few) -> Handled<AnyState>
    ensures { result ≡ record { state = state; answer = Answer.Nothing; back = back } }
{
    Handled {
        state,
        answer: Answer::Nothing,
        back,
    }
}
