//! Whole texts by an encoder that keeps no state.
ghost use Rattle.std.specs.Prelude.{◌≡◌};
ghost use Rattle.std.specs.Str.{chars};
ghost use Rattle.index_loader.specs.Table.{pointer_limit};
ghost use Rattle.encoders.specs.Encode.{IsEncoded, bytes_only, is_html};
ghost use Rattle.encoders.specs.{Stateless.stateless, Steps.encoded_from};

use crate::fault::EncodeFault;
use crate::mode::EncodeMode;
use crate::over_index::{IndexEncoder, IndexRules};
use crate::stateless::{ByBytes, Stateless};
use decoder_core::{Encoder, encode_by};
use index_loader::Index;
use std::alloc::Global;

/// A text by an encoder over its index.
pub(crate) fn encode_indexed<R: IndexRules>(
    alloc: Global,
    index: &Index,
    mode: EncodeMode,
    text: &str,
) -> Result<Vec<u8>, EncodeFault>
    requires { pointer_limit index.now.kind ≡ R.limit }
    ensures { IsEncoded (bytes_only (encoded_from (stateless (R.written index.now)) (is_html mode) 0 tt (chars text.now))) result }
{
    encode_bytes(alloc, &IndexEncoder::<R>::new(index), mode, text)
}

/// A text by the bytes of each code point.
pub(crate) fn encode_bytes<E: Stateless>(
    alloc: Global,
    encoder: &E,
    mode: EncodeMode,
    text: &str,
) -> Result<Vec<u8>, EncodeFault>
    ensures { IsEncoded (bytes_only (encoded_from (stateless (E.encodes encoder.now)) (is_html mode) 0 tt (chars text.now))) result }
{
    encode_with(alloc, &ByBytes::new(encoder), mode, text)
}

/// A text by an encoder that keeps no state.
fn encode_with<E: Encoder<State = ()>>(
    alloc: Global,
    encoder: &E,
    mode: EncodeMode,
    text: &str,
) -> Result<Vec<u8>, EncodeFault>
    ensures { IsEncoded (bytes_only (encoded_from (E.table encoder.now) (is_html mode) 0 tt (chars text.now))) result }
{
    match encode_by(alloc, encoder, mode.is_html(), (), text) {
        Ok((bytes, _)) => Ok(bytes),
        Err(fault) => Err(EncodeFault::from(fault)),
    }
}
