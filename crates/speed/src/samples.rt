//! The encodings of the texts, and the documents that are made of them.
ghost use Rattle.std.specs.Prelude.{◌≡◌, ◌*◌, ◌+◌, ◌<◌, ◌≤◌, length};

use enc_names::Encoding;
use index_files::EarlyEnd;
use oracle::texts::EncodingTexts;
use std::alloc::{AllocError, Global};

/// The most bytes of a document.
const MEGABYTE: usize = 1_048_576;

/// The encoding of these texts.
pub fn encoding_of(texts: &EncodingTexts) -> Result<Encoding, EarlyEnd> {
    for encoding in &Encoding::ALL {
        if encoding.name() == texts.name {
            return Ok(*encoding);
        }
    }
    Err(EarlyEnd::Mistake("no encoding has the name of these texts"))
}

/// The number of copies of a text in a document of up to a megabyte. As many copies fit (`fit`),
/// and no more do (`most`).
pub fn copies(text: &[u8]) -> usize
    ensures fit { result * length text.now ≤ 1048576 }
    ensures most { 0 < length text.now → 1048576 < (result + 1) * length text.now }
{
    MEGABYTE.checked_div(text.len()).unwrap_or(0)
}

/// The document of a text: its copies, in sequence.
pub fn document(alloc: Global, text: &[u8]) -> Result<Vec<u8>, AllocError> {
    text.repeat(alloc, copies(text))
}
