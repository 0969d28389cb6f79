//! The sum over the texts of all documents.
ghost use Rattle.std.specs.Prelude.{◌≡◌, ◌++◌, List, ℕ, IfOk, IfErr, OnOk, string_bytes};
ghost use Rattle.sha2.specs.Hashers.{Holds256};
ghost use Rattle.sha2.specs.Sha256.{sha256};
ghost use Rattle.std.specs.Str.{encode_utf8_all};
ghost use Rattle.decoder_core.specs.Text.{code_points};
ghost use Rattle.enc_names.specs.declared.bom.Bom.TheVariants.{Sniff};
ghost use Rattle.enc_names.specs.Settings.{setting_of};
ghost use Rattle.codec.specs.Decode.{decode};
ghost use Rattle.decode_sums.specs.Documents.{count_of};
ghost use Rattle.decode_sums.specs.Hashed.{IsFault, hashed_of, hashed_below, hashed_in};

use crate::form::Form;
use codec::{CodecFault, decode_whole};
use enc_names::{Bom, Encoding};
use index_loader::Indexes;
use sha2::{Digest, Sha256};
use std::alloc::Global;

/// The byte after each document's text. UTF-8 doesn't have it, so no two lists of texts are hashed
/// alike.
const SEPARATOR: u8 = 0xFF;

/// The SHA-256 of the texts of all documents of these forms (`sum`). Each text is in UTF-8,
/// followed by the byte FF. Refused with `NoIndex` if an index file of the encoding isn't loaded
/// (`faults`).
pub fn sum_of(
    alloc: Global,
    indexes: &Indexes,
    encoding: Encoding,
    forms: &[Form],
) -> Result<[u8; 32], CodecFault>
    ensures sum { IfOk result (λ sum. sum ≡ sha256 (hashed_in indexes.now encoding forms.now)) }
    ensures faults { IfErr result (λ fault. IsFault indexes.now encoding fault) }
{
    let mut hasher = Sha256::new();
    'forms: for form in forms {
        hash_form(alloc, indexes, encoding, *form, &mut hasher)?;
    }
    Ok(hasher.finalize())
}

/// Hashes the texts of all documents of a form.
fn hash_form(
    alloc: Global,
    indexes: &Indexes,
    encoding: Encoding,
    form: Form,
    hasher: &mut Sha256,
) -> Result<(), CodecFault>
    ensures hashed { (m : List ℕ) → Holds256 hasher.old m → OnOk result (Holds256 hasher.new (m ++ hashed_below indexes.now encoding form (count_of form))) }
    ensures faults { IfErr result (λ fault. IsFault indexes.now encoding fault) }
{
    'documents: for number in 0..form.count() {
        let document = form.document(alloc, number)?;
        hash_text(alloc, indexes, encoding, &document, hasher)?;
    }
    Ok(())
}

/// Hashes a document's text and the byte after it.
fn hash_text(
    alloc: Global,
    indexes: &Indexes,
    encoding: Encoding,
    document: &[u8],
    hasher: &mut Sha256,
) -> Result<(), CodecFault>
    ensures hashed { (m : List ℕ) → Holds256 hasher.old m → OnOk result (Holds256 hasher.new (m ++ hashed_of indexes.now encoding document.now)) }
    ensures faults { IfErr result (λ fault. IsFault indexes.now encoding fault) }
{
    let text = text_of(alloc, indexes, encoding, document)?;
    hasher.update(text.as_bytes());
    hasher.update(&[SEPARATOR]);
    Ok(())
}

/// A document's text.
fn text_of(
    alloc: Global,
    indexes: &Indexes,
    encoding: Encoding,
    document: &[u8],
) -> Result<String, CodecFault>
    ensures text { IfOk result (λ text. string_bytes text ≡ encode_utf8_all (code_points (decode indexes.now (setting_of encoding Sniff) document.now).items)) }
    ensures faults { IfErr result (λ fault. IsFault indexes.now encoding fault) }
{
    Ok(decode_whole(alloc, indexes, encoding, Bom::Sniff, document)?.text)
}
