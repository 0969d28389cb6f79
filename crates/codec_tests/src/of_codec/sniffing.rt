//! The states of the look for a byte order mark, and those after it.

use crate::indexes::small_indexes;
use codec::{AnyDecoder, AnyState, CodecFault, Prefix};
use decoder_core::Decoder;
use enc_names::{Bom, Encoding};
use iso2022jp::OutputState;
use std::test::Fail;

/// The state after the bytes.
fn state_behind(decoder: &AnyDecoder<'_>, bytes: &[u8]) -> AnyState {
    let mut state = decoder.start();
    for byte in bytes {
        state = decoder.step(state, *byte).state;
    }
    state
}

/// Whether the state after the bytes is that of a partial mark.
fn has_begun(decoder: &AnyDecoder<'_>, bytes: &[u8], prefix: Prefix) -> bool {
    state_behind(decoder, bytes) == AnyState::Sniffing(prefix)
}

/// Bytes read as Shift_JIS, bytes read as UTF-8, and whether their states agree. They are the
/// states after the bytes.
const BOTH: [(&[u8], &[u8], bool); 4] = [
    (b"\xEF\xBB", b"\xEF\xBB", true),
    (b"\xEF\xBB\xBF\xE3\x81", b"\xE3\x81", true),
    (b"\xEF\xBB\xBF\xE3\x81", b"\xEF\xBB\xBF\xE3\x81", true),
    (b"\xE3", b"\xE3", false),
];

#[test]
fn states_behind_a_mark_are_those_of_its_encoding(rt: HostRuntime) -> Result<(), Fail> {
    let indexes = small_indexes(rt.alloc())?;
    let utf8 = AnyDecoder::new(&indexes, Encoding::Utf8, Bom::Sniff).ok_or(CodecFault::NoIndex)?;
    let jis = AnyDecoder::new(&indexes, Encoding::ShiftJis, Bom::Sniff).ok_or(CodecFault::NoIndex)?;
    assert!(rt;
        has_begun(&jis, b"", Prefix::Nothing) && has_begun(&jis, b"\xEF\xBB", Prefix::EfBb)
    );
    for (left, right, same) in BOTH {
        assert!(rt; (state_behind(&jis, left) == state_behind(&utf8, right)) == same);
    }
    Ok(())
}

/// Whether a mark is still looked for after these bytes, if `next` follows.
fn looks(decoder: &AnyDecoder<'_>, behind: &[u8], next: &[u8]) -> bool {
    let state = decoder.without_look(state_behind(decoder, behind), next);
    matches!(state, AnyState::Sniffing(_))
}

#[test]
fn no_mark_is_looked_for_where_none_can_begin(rt: HostRuntime) -> Result<(), Fail> {
    let indexes = small_indexes(rt.alloc())?;
    let jis = AnyDecoder::new(&indexes, Encoding::ShiftJis, Bom::Sniff).ok_or(CodecFault::NoIndex)?;
    assert!(rt;
        looks(&jis, b"", b"\xEFA") && looks(&jis, b"", b"\xFE") && looks(&jis, b"", b"\xFFA")
    );
    assert!(rt; looks(&jis, b"", b"") && looks(&jis, b"\xEF", b"A"));
    assert!(rt; !looks(&jis, b"", b"A\xEF") && !looks(&jis, b"A", b"A"));
    Ok(())
}

/// Bytes that are read as ISO-2022-JP, and the output state after them.
const OUTPUTS: [(&[u8], OutputState); 5] = [
    (b"", OutputState::Ascii),
    (b"\x1B", OutputState::Ascii),
    (b"\x1B$", OutputState::Ascii),
    (b"\x1B$B", OutputState::Jis0208),
    (b"\x1B(J", OutputState::Roman),
];

#[test]
fn output_state_behind_escapes(rt: HostRuntime) -> Result<(), Fail> {
    let indexes = small_indexes(rt.alloc())?;
    let jp = AnyDecoder::new(&indexes, Encoding::Iso2022Jp, Bom::Sniff).ok_or(CodecFault::NoIndex)?;
    for (bytes, output) in OUTPUTS {
        assert!(rt; state_behind(&jp, bytes).output() == output);
    }
    let utf8 = AnyDecoder::new(&indexes, Encoding::Utf8, Bom::Sniff).ok_or(CodecFault::NoIndex)?;
    assert!(rt; state_behind(&utf8, b"A").output() == OutputState::Ascii);
    Ok(())
}
