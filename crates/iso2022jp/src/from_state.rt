//! Encoding to ISO-2022-JP from any state on.
ghost use Rattle.std.specs.Prelude.{◌≡◌, ◌≢◌, ◌++◌, ℕ, Option, IfOk, OnOk, true};
ghost use Rattle.std.specs.Str.{chars};
ghost use Rattle.enc_names.specs.declared.encoding.Encoding.TheVariants.{Iso2022Jp};
ghost use Rattle.index_loader.specs.Files.{has_files};
ghost use Rattle.decoder_core.specs.declared.encoder.EncoderAnswer.TheVariants.{Restores};
ghost use Rattle.iso2022jp.specs.declared.output.OutputState.{OutputState};
ghost use Rattle.decoder_core.specs.EncoderOutput.{IsFrom};
ghost use Rattle.iso2022jp.specs.Iso2022JpEncoder.{encoded_iso, end_bytes, end_state, iso_2022_jp_encoder};

use crate::iso_encoder::{Iso2022JpEncoder, escape_of};
use crate::output::OutputState;
use decoder_core::{FromFault, encode_by};
use index_loader::Indexes;
use std::alloc::{AllocError, Global};

/// Encodes a text to ISO-2022-JP from a state. The bytes and the state after them are those of the
/// Encoding Standard, "ISO-2022-JP encoder". With `html` a code point without bytes is put as a
/// decimal character reference; otherwise it is the fault. With `end` the escape back to ASCII
/// follows if the state isn't ASCII.
pub fn encode_from(
    alloc: Global,
    indexes: &Indexes,
    state: OutputState,
    text: &str,
    html: bool,
    end: bool,
) -> Result<(Vec<u8>, OutputState), FromFault>
    requires { has_files indexes.now Iso2022Jp ≡ true }
    ensures { IsFrom (encoded_iso indexes.now state (chars text.now) html end) result }
{
    let encoder = Iso2022JpEncoder::new(indexes);
    let (mut bytes, behind) = encode_by(alloc, &encoder, html, state, text)?;
    let after = put_end(end, behind, &mut bytes)?;
    Ok((bytes, after))
}

/// Takes the end of the queue, on request: it writes the escape back to ASCII from any other state.
fn put_end(end: bool, state: OutputState, out: &mut Vec<u8>) -> Result<OutputState, AllocError>
    ensures bytes { OnOk result (out.new.items ≡ out.old.items ++ end_bytes end state) }
    ensures state { IfOk result (λ after. after ≡ end_state end state) }
{
    if !end || state == OutputState::Ascii {
        return Ok(state);
    }
    out.extend_from_slice(&escape_of(OutputState::Ascii))?;
    Ok(OutputState::Ascii)
}

/// States that the ISO-2022-JP encoder restores no code point twice. So a code point takes at most
/// two turns. The call does nothing.
pub fn law_no_second_restore()
    ensures { (pointer : ℕ → Option ℕ) (s : OutputState) (c : ℕ) → let table = iso_2022_jp_encoder pointer in (table s c).answer ≡ Restores
        → (table (table s c).state c).answer ≢ Restores }
{}
