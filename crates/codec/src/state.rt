//! States of the one decoder.
ghost use Rattle.std.specs.Prelude.{◌≡◌};
ghost use Rattle.codec.specs.Any.{output_of};

use crate::prefix::Prefix;
use decoder_core::{OneByteState, ReplacementState, Utf8State, Utf16State};
use iso2022jp::{Iso2022JpState, OutputState};
use multibyte_decoders::{EucJpState, Gb18030State, PairState};

/// The state of the decoder between two bytes. It is the bytes themselves while they may become a
/// byte order mark that is looked for. Otherwise it is the effective encoding with its own
/// decoder's state.
#[derive(Clone, Copy, PartialEq, Eq, Debug)]
pub enum AnyState {
    /// The bytes so far, which begin a byte order mark that is looked for.
    Sniffing(Prefix),
    /// The state in UTF-8.
    Utf8(Utf8State),
    /// The state in gb18030 or GBK.
    Gb18030(Gb18030State),
    /// The state in an encoding of single bytes and pairs.
    Pair(PairState),
    /// The state in EUC-JP.
    EucJp(EucJpState),
    /// The state in ISO-2022-JP.
    Iso2022Jp(Iso2022JpState),
    /// The state in a single-byte encoding, which holds nothing between two bytes.
    SingleByte(OneByteState),
    /// The state in x-user-defined, which holds nothing between two bytes.
    XUserDefined(OneByteState),
    /// The state in replacement.
    Replacement(ReplacementState),
    /// The state in UTF-16BE.
    Utf16Be(Utf16State),
    /// The state in UTF-16LE.
    Utf16Le(Utf16State),
}

impl AnyState {
    /// The meaning of the bytes after the last escape of ISO-2022-JP. (Encoding Standard,
    /// "ISO-2022-JP decoder output state".) It is `Ascii` in every other encoding.
    pub fn output(self) -> OutputState
        ensures { result ≡ output_of self }
    {
        match self {
            AnyState::Iso2022Jp(state) => state.output(),
            _ => OutputState::Ascii,
        }
    }
}
