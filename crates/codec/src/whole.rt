//! Decoding of bytes as a whole.
ghost use Rattle.std.specs.Prelude.{◌≡◌, None, IfOk, string_bytes};
ghost use Rattle.std.specs.Str.{chars};
ghost use Rattle.enc_names.specs.Settings.{setting_of};
ghost use Rattle.decoder_core.specs.Text.{code_points, error_places};
ghost use Rattle.codec.specs.{Decode.decode, Decode.fatal_of, Refused.Refused};

use crate::by_any::decode_any;
use crate::decoder::AnyDecoder;
use crate::decoding::Decoding;
use crate::fault::CodecFault;
use crate::mark::{Sniffed, sniff};
use decoder_core::meter;
use enc_names::{Bom, Encoding, Place, Setting};
use index_loader::Indexes;
use std::alloc::Global;

/// The result of decoding some bytes.
#[derive(Drop)]
pub struct Decoded {
    /// The effective encoding.
    pub encoding: Encoding,
    /// The number of bytes of the byte order mark. It is 0 if there is none or marks are kept.
    pub bom_len: u64,
    /// The text after the mark, with U+FFFD for each error.
    pub text: String,
    /// The places of the errors among all the bytes, in order.
    pub errors: Vec<Place>,
}

/// Decodes bytes (Encoding Standard, "decode", error mode "replacement"). With `Keep` no byte order
/// mark is looked for. The effective encoding (`encoding`), the length of the mark (`bom_len`), the
/// text (`text`) and the errors (`errors`) are those of the definition. Refused with `NoIndex` if
/// the declared encoding can't be decoded (`faults`).
///
/// Bytes that come in parts, however they are cut, have the same items. [`AnyDecoder`] is a
/// `Decoder`, and `decode_parts` returns for it the places of the run over all bytes. The first of
/// these places begins after the mark.
#[tactic(auto, unfolding(crate::specs::Decode::decode))]
pub fn decode_whole(
    alloc: Global,
    indexes: &Indexes,
    encoding: Encoding,
    bom: Bom,
    bytes: &[u8],
) -> Result<Decoded, CodecFault>
    ensures encoding { IfOk result (λ d. d.encoding ≡ (decode indexes.now (setting_of encoding bom) bytes.now).encoding) }
    ensures bom_len { IfOk result (λ d. d.bom_len ≡ (decode indexes.now (setting_of encoding bom) bytes.now).bom) }
    ensures text { IfOk result (λ d. chars (string_bytes d.text) ≡ code_points (decode indexes.now (setting_of encoding bom) bytes.now).items) }
    ensures errors { IfOk result (λ d. d.errors.items ≡ error_places (decode indexes.now (setting_of encoding bom) bytes.now).items) }
    ensures faults { Refused indexes.now encoding None result }
{
    let setting = Setting::new(encoding, bom);
    let decoder = AnyDecoder::under(indexes, setting).ok_or(CodecFault::NoIndex)?;
    let Decoding { text, errors } = decode_any(alloc, &decoder, bytes, &mut meter())?;
    let Sniffed { encoding, bom_len } = sniff(setting, bytes);
    Ok(Decoded {
        encoding,
        bom_len,
        text,
        errors,
    })
}

/// Decodes bytes to their text (Encoding Standard, "decode", error mode "fatal") (`text`). It reads
/// them like `decode_whole`. Refused with `NoIndex` if the declared encoding can't be decoded, then
/// with `Malformed` at the first error (`faults`).
pub fn decode_fatal(
    alloc: Global,
    indexes: &Indexes,
    encoding: Encoding,
    bom: Bom,
    bytes: &[u8],
) -> Result<String, CodecFault>
    ensures text { IfOk result (λ text. chars (string_bytes text) ≡ code_points (decode indexes.now (setting_of encoding bom) bytes.now).items) }
    ensures faults { Refused indexes.now encoding (fatal_of (decode indexes.now (setting_of encoding bom) bytes.now).items) result }
{
    let Decoded { text, errors, .. } = decode_whole(alloc, indexes, encoding, bom, bytes)?;
    match errors.first() {
        Some(place) => Err(CodecFault::Malformed(*place)),
        None => Ok(text),
    }
}
