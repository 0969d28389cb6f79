//! Tests of a document that no op shows. They are of what a splice decodes, which splices keep the
//! text, and that a copy keeps byte order marks as the document does. They are also of what pieces
//! remember if an edit of several parts is undone, and where bytes are cut into pieces.

use decoder_core::{Meter, meter};
use enc_names::{Bom, Encoding, Setting};
use index_loader::Indexes;
use piece_rope::{Doc, DocFault};
use std::alloc::Global;
use std::process::Abort;
use std::test::Fail;

mod copies;
mod cuts;
mod kept;
mod marks;
mod meters;
mod scripts;
mod several;

/// `count` bytes `a` and then these.
fn behind_letters(alloc: Global, count: usize, bytes: &[u8]) -> Result<Vec<u8>, DocFault> {
    let mut all = vec![in alloc; b'a'; count]?;
    all.extend_from_slice(bytes)?;
    Ok(all)
}

/// `count` letters `A` in UTF-16LE.
fn letters(alloc: Global, count: usize) -> Result<Vec<u8>, DocFault> {
    let mut bytes = Vec::new(alloc);
    for _ in 0..count {
        bytes.extend_from_slice(&[0x41, 0x00])?;
    }
    Ok(bytes)
}

/// The document of these bytes.
fn opened<'i>(
    alloc: Global,
    indexes: &'i Indexes,
    given: Encoding,
    bom: Bom,
    bytes: &[u8],
) -> Result<Doc<'i>, DocFault> {
    Doc::open(alloc, indexes, given, bom, bytes, &mut meter())
}
