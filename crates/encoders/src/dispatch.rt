//! One encoder for all encodings.
ghost use Rattle.std.specs.Prelude.{◌≡◌, Some, true};
ghost use Rattle.std.specs.Str.{chars};
ghost use Rattle.enc_names.specs.declared.encoding.Encoding.TheVariants.{Iso2022Jp};
ghost use Rattle.index_loader.specs.{Families.family_map, Files.has_files, Table.pointer_limit};
ghost use Rattle.iso2022jp.specs.declared.output.OutputState.TheVariants.{Ascii};
ghost use Rattle.encoders.specs.Encode.{IsEncoded, bytes_only, encoded, encoded_over, is_html};
ghost use Rattle.encoders.specs.{Fit.IsFit, SingleByte.single_byte_bytes, Stateless.stateless, Steps.encoded_from, Steps.encoded_iso};

use crate::euc_jp::EucJp;
use crate::fault::EncodeFault;
use crate::gb18030::{Gb18030Encoder, is_gbk};
use crate::mode::EncodeMode;
use crate::pairs::encode_pairs;
use crate::single_byte::{SingleByte, front_of};
use crate::utf16::encode_utf16;
use crate::whole_text::{encode_bytes, encode_indexed};
use crate::x_user_defined::XUserDefinedEncoder;
use decoder_core::ByteOrder;
use enc_names::Encoding;
use index_loader::{Family, Index, Indexes};
use iso2022jp::{OutputState, encode_from};
use std::alloc::Global;

/// Encodes a text (Encoding Standard, "encode"; to UTF-16 by Unicode, chapter 3, D91, without a byte
/// order mark). Refused as `NoIndex` if an index file of the encoding isn't loaded, and as
/// `NoEncoder` for replacement. In mode `Fatal` it is refused as `Unencodable` at the first code
/// point without bytes.
#[tactic(auto, unfolding(crate::specs::Encode::encoded))]
pub fn encode(
    alloc: Global,
    encoding: Encoding,
    indexes: &Indexes,
    mode: EncodeMode,
    text: &str,
) -> Result<Vec<u8>, EncodeFault>
    ensures { IsEncoded (encoded indexes.now encoding mode (chars text.now)) result }
{
    match indexes.of(encoding) {
        Some(family) => encode_over(alloc, is_gbk(encoding), indexes, family, mode, text),
        None => Err(EncodeFault::NoIndex),
    }
}

/// Encodes a text over the indexes of the encoding's family, borrowed from `indexes`.
fn encode_over(
    alloc: Global,
    is_gbk: bool,
    indexes: &Indexes,
    family: Family<&Index>,
    mode: EncodeMode,
    text: &str,
) -> Result<Vec<u8>, EncodeFault>
    requires { IsFit indexes.now (family_map (λ index. Some index.now) family) }
    ensures { IsEncoded (encoded_over is_gbk indexes.now (family_map (λ index. Some index.now) family.entry) (is_html mode) (chars text.now)) result }
{
    match family {
        Family::Utf8 => Ok(Vec::from_slice(alloc, text.as_bytes())?),
        Family::Replacement => Err(EncodeFault::NoEncoder),
        Family::Utf16Be => Ok(encode_utf16(alloc, ByteOrder::BigEndian, text)?),
        Family::Utf16Le => Ok(encode_utf16(alloc, ByteOrder::LittleEndian, text)?),
        Family::XUserDefined => encode_bytes(alloc, &XUserDefinedEncoder, mode, text),
        Family::Iso2022Jp { .. } => encode_iso(alloc, indexes, mode, text),
        Family::Pair(encoding, index) => encode_pairs(alloc, encoding, index, mode, text),
        Family::EucJp { jis0208, .. } => encode_indexed::<EucJp>(alloc, jis0208, mode, text),
        Family::SingleByte(index) => encode_single_byte(alloc, index, mode, text),
        Family::Gb18030 { index, ranges } => {
            encode_bytes(
                alloc,
                &Gb18030Encoder::new(is_gbk, indexes, index, ranges),
                mode,
                text,
            )
        }
    }
}

/// A text to ISO-2022-JP, from its first state and with the end.
fn encode_iso(
    alloc: Global,
    indexes: &Indexes,
    mode: EncodeMode,
    text: &str,
) -> Result<Vec<u8>, EncodeFault>
    requires { has_files indexes.now Iso2022Jp ≡ true }
    ensures { IsEncoded (bytes_only (encoded_iso indexes.now Ascii (chars text.now) (is_html mode) true)) result }
{
    match encode_from(
        alloc,
        indexes,
        OutputState::Ascii,
        text,
        mode.is_html(),
        true,
    ) {
        Ok((bytes, _)) => Ok(bytes),
        Err(fault) => Err(EncodeFault::from(fault)),
    }
}

/// Encodes a text by one byte for each code point. From the first code point without a byte, the
/// encoding's encoder takes the rest.
fn encode_single_byte(
    alloc: Global,
    index: &Index,
    mode: EncodeMode,
    text: &str,
) -> Result<Vec<u8>, EncodeFault>
    requires { pointer_limit index.now.kind ≡ 127 }
    ensures { IsEncoded (bytes_only (encoded_from (stateless (single_byte_bytes index.now)) (is_html mode) 0 tt (chars text.now))) result }
{
    let (mut bytes, rest) = front_of(alloc, index, text)?;
    if rest.is_empty() {
        return Ok(bytes);
    }
    match encode_indexed::<SingleByte>(alloc, index, mode, rest) {
        Ok(others) => {
            bytes.extend_from_slice(&others)?;
            Ok(bytes)
        }
        // A fault tells its place in the whole text.
        Err(_) => encode_indexed::<SingleByte>(alloc, index, mode, text),
    }
}
