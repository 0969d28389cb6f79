//! The encodings' own decoders, and how the one decoder is made of them.
ghost use Rattle.std.specs.Prelude.{◌≡◌, Some};
ghost use Rattle.index_loader.specs.Families.{family_map};
ghost use Rattle.decoder_core.specs.Steps.{bytes_of};
ghost use Rattle.codec.specs.Any.{given, given_start, standing};

use crate::sniffing::{UTF_16BE, UTF_16LE};
use crate::state::AnyState;
use decoder_core::{
    Answer, Few, Handled, Handler, ReplacementDecoder, SingleByteDecoder, Utf8Decoder,
    XUserDefinedDecoder,
};
use index_loader::{Family, Index};
use iso2022jp::Iso2022JpDecoder;
use multibyte_decoders::{EucJpDecoder, Gb18030Decoder, PairDecoders};

/// An encoding's own decoder, which looks for no byte order mark. (Encoding Standard, the decoder
/// of each encoding.) It borrows the indexes that the encoding needs.
#[derive(Drop)]
pub enum OwnDecoder<'i> {
    /// The decoder of UTF-8.
    Utf8(Utf8Decoder),
    /// The decoder of gb18030 and of GBK.
    Gb18030(Gb18030Decoder<'i>),
    /// The decoder of an encoding of single bytes and pairs.
    Pair(PairDecoders<'i>),
    /// The decoder of EUC-JP.
    EucJp(EucJpDecoder<'i>),
    /// The decoder of ISO-2022-JP.
    Iso2022Jp(Iso2022JpDecoder<'i>),
    /// The decoder of the 28 single-byte encodings.
    SingleByte(SingleByteDecoder<'i>),
    /// The decoder of x-user-defined.
    XUserDefined(XUserDefinedDecoder),
    /// The decoder of replacement.
    Replacement(ReplacementDecoder),
    /// The decoder of UTF-16BE.
    Utf16Be,
    /// The decoder of UTF-16LE.
    Utf16Le,
}

/// Runs an arm with the decoder, found by one match: `$arm!(NAME, DECODER, $with ..)`. NAME is the
/// name that the decoder has here and its states have in `AnyState`.
#[macro_export]
macro_rules! by_own {
    ($own:expr, $arm:ident $(, $with:expr)*) => {
        match $own {
            $crate::OwnDecoder::Utf8(d) => $arm!(Utf8, d $(, $with)*),
            $crate::OwnDecoder::Gb18030(d) => $arm!(Gb18030, d $(, $with)*),
            $crate::OwnDecoder::Pair(d) => multibyte_decoders::by_pairs!(d, $arm $(, $with)*),
            $crate::OwnDecoder::EucJp(d) => $arm!(EucJp, d $(, $with)*),
            $crate::OwnDecoder::Iso2022Jp(d) => $arm!(Iso2022Jp, d $(, $with)*),
            $crate::OwnDecoder::SingleByte(d) => $arm!(SingleByte, d $(, $with)*),
            $crate::OwnDecoder::XUserDefined(d) => $arm!(XUserDefined, d $(, $with)*),
            $crate::OwnDecoder::Replacement(d) => $arm!(Replacement, d $(, $with)*),
            $crate::OwnDecoder::Utf16Be => $arm!(Utf16Be, &$crate::UTF_16BE $(, $with)*),
            $crate::OwnDecoder::Utf16Le => $arm!(Utf16Le, &$crate::UTF_16LE $(, $with)*),
        }
    };
}

/// Takes a turn of an encoding's own decoder, with its state as one of all.
macro_rules! turn_among {
    ($name:ident, $decoder:expr, $state:expr, $byte:expr) => {{
        let turn = $decoder.turn($state, $byte);
        among(AnyState::$name(turn.state), turn)
    }};
}

pub(crate) use turn_among;

/// The first state of a decoder, as one of the states of all.
macro_rules! first_state {
    ($name:ident, $decoder:expr) => {
        AnyState::$name($decoder.start_state())
    };
}

/// A turn of the decoder whose own state this is.
macro_rules! own_turn {
    ($own:expr, $state:expr, $byte:expr, [$($name:ident),*]) => {
        match ($own, $state) {
            $((OwnDecoder::$name(d), AnyState::$name(s)) => turn_among!($name, d, s, $byte),)*
            _ => Handled {
                state: $state,
                answer: Answer::Finished,
                back: Few::Zero,
            },
        }
    };
}

impl<'i> OwnDecoder<'i> {
    /// The decoder of a family over the indexes that its encodings need.
    pub(crate) fn new(family: Family<&'i Index>) -> OwnDecoder<'i>
        ensures { Some result ≡ (standing (family_map (λ index. Some index.now) family.entry)).decoder }
    {
        match family {
            Family::Utf8 => OwnDecoder::Utf8(Utf8Decoder),
            Family::Gb18030 { index, ranges } => {
                OwnDecoder::Gb18030(Gb18030Decoder::new(index, ranges))
            }
            Family::Pair(encoding, index) => OwnDecoder::Pair(PairDecoders::new(encoding, index)),
            Family::EucJp { jis0208, jis0212 } => {
                OwnDecoder::EucJp(EucJpDecoder::new(jis0208, jis0212))
            }
            Family::Iso2022Jp { jis0208, .. } => {
                OwnDecoder::Iso2022Jp(Iso2022JpDecoder::new(jis0208))
            }
            Family::SingleByte(index) => OwnDecoder::SingleByte(SingleByteDecoder::new(index)),
            Family::XUserDefined => OwnDecoder::XUserDefined(XUserDefinedDecoder),
            Family::Replacement => OwnDecoder::Replacement(ReplacementDecoder),
            Family::Utf16Be => OwnDecoder::Utf16Be,
            Family::Utf16Le => OwnDecoder::Utf16Le,
        }
    }

    /// The first state of the encoding, if no byte order mark precedes it.
    pub(crate) fn given_start(&self) -> AnyState
        ensures { result ≡ given_start self.now }
    {
        by_own!(self, first_state)
    }

    /// A turn in a state of the encoding, which isn't UTF-8 or UTF-16.
    pub(crate) fn given_turn(&self, state: AnyState, byte: Option<u8>) -> Handled<AnyState>
        ensures state { result.state ≡ (given self.now state byte).state }
        ensures answer { result.answer ≡ (given self.now state byte).answer }
        ensures back { bytes_of result.back ≡ (given self.now state byte).back }
    {
        own_turn!(
            self,
            state,
            byte,
            [
                Gb18030,
                Pair,
                EucJp,
                Iso2022Jp,
                SingleByte,
                XUserDefined,
                Replacement
            ]
        )
    }
}

/// Makes a turn of the one decoder from a turn of an encoding's decoder.
pub(crate) fn among<S: Copy>(state: AnyState, turn: Handled<S>) -> Handled<AnyState>
    ensures { result ≡ record { state = state; answer = turn.answer; back = turn.back } }
{
    Handled {
        state,
        answer: turn.answer,
        back: turn.back,
    }
}
