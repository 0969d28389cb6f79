//! The laws of the one decoder's runs.
ghost use Rattle.std.specs.Prelude.{◌≡◌, ℕ, List};
ghost use Rattle.decoder_core.specs.Queue.{feed, run};
ghost use Rattle.codec.specs.Any.{AnyDecoding, any, any_start, run_behind, stands_behind};
ghost use Rattle.codec.specs.{Mark.mark_under, Sniffing.prefix_under};

use crate::decoder::AnyDecoder;
use decoder_core::{
    ReplacementDecoder, SingleByteDecoder, Utf8Decoder, Utf16Decoder, XUserDefinedDecoder,
    law_all_among, law_all_runs,
};
use iso2022jp::Iso2022JpDecoder;
use multibyte_decoders::{EucJpDecoder, Gb18030Decoder, PairDecoders};

/// States the laws of the one decoder's runs from the first byte. The call does nothing.
///
/// After the byte order mark, or from the first byte if none counts, the one decoder does what the
/// effective decoder does alone. It gives the items of that decoder's run (`run`) and reaches its
/// state (`state`). The exception is bytes that are a proper prefix of a mark that is looked for:
/// then that prefix is its state.
pub(crate) fn law_standing()
    ensures run { (d : AnyDecoding) (bytes : List ℕ) → run (any d) (any_start d) bytes ≡ run_behind d bytes (mark_under d.setting bytes) }
    ensures state { (d : AnyDecoding) (bytes : List ℕ)
        → (feed (any d) (any_start d) bytes).state ≡ stands_behind d bytes (prefix_under d.setting bytes) (mark_under d.setting bytes) }
{
    law_all_among::<Utf8Decoder, AnyDecoder<'_>>();
    law_all_among::<Gb18030Decoder<'_>, AnyDecoder<'_>>();
    law_all_among::<PairDecoders<'_>, AnyDecoder<'_>>();
    law_all_among::<EucJpDecoder<'_>, AnyDecoder<'_>>();
    law_all_among::<Iso2022JpDecoder<'_>, AnyDecoder<'_>>();
    law_all_among::<SingleByteDecoder<'_>, AnyDecoder<'_>>();
    law_all_among::<XUserDefinedDecoder, AnyDecoder<'_>>();
    law_all_among::<ReplacementDecoder, AnyDecoder<'_>>();
    law_all_among::<Utf16Decoder, AnyDecoder<'_>>();
    law_all_runs::<AnyDecoder<'_>>();
}
