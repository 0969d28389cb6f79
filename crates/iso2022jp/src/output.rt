//! The output state.
ghost use Rattle.std.specs.Prelude.{◌≡◌};
ghost use Rattle.iso2022jp.specs.Iso2022Jp.{escape_to};

/// The meaning of the bytes between two escapes (Encoding Standard, "ISO-2022-JP decoder output
/// state").
#[derive(Clone, Copy, PartialEq, Eq, Debug)]
pub enum OutputState {
    /// ASCII, set by `1B 28 42` and at the start.
    Ascii,
    /// JIS X 0201's Latin letters, set by `1B 28 4A`.
    Roman,
    /// JIS X 0201's half-width katakana, set by `1B 28 49`.
    Katakana,
    /// Pairs of index jis0208 ("lead byte"), set by `1B 24 40` and `1B 24 42`.
    Jis0208,
}

/// The output state that an escape's last two bytes name.
pub(crate) fn escape_to(lead: u8, byte: u8) -> Option<OutputState>
    ensures { result ≡ escape_to lead byte }
{
    match (lead, byte) {
        (0x28, 0x42) => Some(OutputState::Ascii),
        (0x28, 0x4A) => Some(OutputState::Roman),
        (0x28, 0x49) => Some(OutputState::Katakana),
        (0x24, 0x40 | 0x42) => Some(OutputState::Jis0208),
        _ => None,
    }
}
