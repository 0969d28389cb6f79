//! Texts that are encoded part by part.
ghost use Rattle.std.specs.Prelude.{◌≡◌, ◌++◌, ◌<◌, ℕ, Bool, List, Err, length, take, true, false};
ghost use Rattle.std.specs.Str.{chars};
ghost use Rattle.enc_names.specs.declared.encoding.Encoding.{Encoding};
ghost use Rattle.index_loader.specs.Files.{Files};
ghost use Rattle.decoder_core.specs.declared.fault.Unencodable.{Unencodable};
ghost use Rattle.iso2022jp.specs.declared.output.OutputState.{OutputState, TheVariants.Ascii};
ghost use Rattle.encoders.specs.declared.{mode.EncodeMode.EncodeMode, fault.EncodeFault.EncodeFault, fault.EncodeFault.TheVariants.Unencodable as no_bytes};
ghost use Rattle.encoders.specs.{Encode.encoded, Encode.is_html};
ghost use Rattle.encoders.specs.Parts.{HasBytes, IsEncodedPart, IsOfTarget, encoded_part, in_parts, iso_part_in, part_bytes};

use crate::dispatch::encode;
use crate::fault::EncodeFault;
use crate::mode::EncodeMode;
use enc_names::Encoding;
use index_loader::Indexes;
use iso2022jp::{OutputState, encode_from};
use std::alloc::Global;

/// A part of a text that is encoded part by part.
#[derive(Clone, Copy)]
pub struct Part<'t> {
    /// The text of the part.
    pub text: &'t str,
    /// The output state before it: `Ascii` before the first part, then what `encode_part` returned.
    pub state: OutputState,
    /// Whether it is the last part, so that the end of the queue follows.
    pub is_last: bool,
}

/// Encodes a part of a text (Encoding Standard, "encode", as `encode` does a whole text): its bytes,
/// and the output state after them. However a text is cut, the bytes of its parts are those of the
/// whole (`law_parts`). The faults are those of `encode`; the index of a code point without bytes
/// counts from the start of the part.
#[tactic(auto, unfolding(crate::specs::Parts::encoded_part))]
pub fn encode_part(
    alloc: Global,
    encoding: Encoding,
    indexes: &Indexes,
    mode: EncodeMode,
    part: Part<'_>,
) -> Result<(Vec<u8>, OutputState), EncodeFault>
    ensures { IsEncodedPart (encoded_part indexes.now encoding mode part.entry.state (chars part.entry.text.now) part.entry.is_last) result }
{
    match encoding {
        Encoding::Iso2022Jp => encode_iso_part(alloc, indexes, mode, part),
        _ => {
            let bytes = encode(alloc, encoding, indexes, mode, part.text)?;
            Ok((bytes, part.state))
        }
    }
}

/// A part of a text to ISO-2022-JP.
fn encode_iso_part(
    alloc: Global,
    indexes: &Indexes,
    mode: EncodeMode,
    part: Part<'_>,
) -> Result<(Vec<u8>, OutputState), EncodeFault>
    ensures { IsEncodedPart (iso_part_in indexes.now (is_html mode) part.entry.state (chars part.entry.text.now) part.entry.is_last) result }
{
    if !indexes.has(Encoding::Iso2022Jp) {
        return Err(EncodeFault::NoIndex);
    }
    match encode_from(
        alloc,
        indexes,
        part.state,
        part.text,
        mode.is_html(),
        part.is_last,
    ) {
        Ok(put) => Ok(put),
        Err(fault) => Err(EncodeFault::from(fault)),
    }
}

/// The laws of texts that are encoded part by part; the call does nothing.
///
/// A part and the rest, encoded from the output state after the part, are the whole, and an index of
/// the rest counts on from the part's code points (`join`). The one part from `Ascii` with the end is
/// what `encode` gives (`whole`). All before a code point without bytes has bytes (`before`).
/// A fault of the target refuses each text (`target`).
pub fn law_parts()
    ensures join { (files : Files) (encoding : Encoding) (mode : EncodeMode) (s : OutputState) (cs rest : List ℕ) (end : Bool)
        → encoded_part files encoding mode s (cs ++ rest) end
        ≡ in_parts (length cs) (encoded_part files encoding mode s cs false) (λ t. encoded_part files encoding mode t rest end) }
    ensures before { (files : Files) (encoding : Encoding) (mode : EncodeMode) (s : OutputState) (cs : List ℕ) (end : Bool) (e : Unencodable)
        → encoded_part files encoding mode s cs end ≡ Err (no_bytes e)
        → (e.index < length cs) × HasBytes (encoded_part files encoding mode s (take e.index cs) false) }
    ensures target { (files : Files) (encoding : Encoding) (mode : EncodeMode) (s t : OutputState) (cs ds : List ℕ) (end last : Bool) (fault : EncodeFault)
        → IsOfTarget fault → encoded_part files encoding mode s cs end ≡ Err fault → encoded_part files encoding mode t ds last ≡ Err fault }
    ensures whole { (files : Files) (encoding : Encoding) (mode : EncodeMode) (cs : List ℕ)
        → part_bytes (encoded_part files encoding mode Ascii cs true) ≡ encoded files encoding mode cs }
{}
