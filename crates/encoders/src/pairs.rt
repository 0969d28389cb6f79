//! The encoders of single bytes and pairs, each over its index.
ghost use Rattle.std.specs.Prelude.{◌≡◌};
ghost use Rattle.std.specs.Str.{chars};
ghost use Rattle.index_loader.specs.declared.kind.IndexKind.TheVariants.{Pair};
ghost use Rattle.index_loader.specs.{Kinds.greatest_pointer, Table.pointer_limit};
ghost use Rattle.encoders.specs.Encode.{IsEncoded, bytes_only, is_html};
ghost use Rattle.encoders.specs.{Pairs.writing_of, Stateless.stateless, Steps.encoded_from};

mod big5;
mod euc_kr;
mod shift_jis;

use crate::fault::EncodeFault;
use crate::mode::EncodeMode;
use crate::whole_text::encode_indexed;
use index_loader::{Index, PairEncoding};
pub(crate) use shift_jis::minus_folded;
use std::alloc::Global;

/// A text to an encoding of single bytes and pairs.
pub(crate) fn encode_pairs(
    alloc: Global,
    encoding: PairEncoding,
    index: &Index,
    mode: EncodeMode,
    text: &str,
) -> Result<Vec<u8>, EncodeFault>
    requires { pointer_limit index.now.kind ≡ greatest_pointer (Pair encoding) }
    ensures { IsEncoded (bytes_only (encoded_from (stateless ((writing_of encoding).bytes index.now)) (is_html mode) 0 tt (chars text.now))) result }
{
    match encoding {
        PairEncoding::ShiftJis => encode_indexed::<shift_jis::ShiftJis>(alloc, index, mode, text),
        PairEncoding::EucKr => encode_indexed::<euc_kr::EucKr>(alloc, index, mode, text),
        PairEncoding::Big5 => encode_indexed::<big5::Big5>(alloc, index, mode, text),
    }
}
