//! The program with calls of libraries that `gate` doesn't make. It is for a test in which each
//! allocation fails in turn. It prints the result of each call. It ends with status 1 if it has no
//! memory for anything else.
#![tactic(auto)]

use codec::{CodecFault, decode_fatal, decode_whole};
use decoder_core::meter;
use enc_names::{Bom, Encoding};
use index_loader::Indexes;
use piece_rope::{Doc, DocFault};
use state_memo::Piece;
use std::alloc::{AllocError, Global};
use std::io;
use std::process::ExitCode;

/// The text that the bytes repeat, and how often: three pieces.
const PART: &[u8] = b"\xE2\x82\xACtext ";

const PARTS: usize = 600;

/// The reason why the program ends early.
#[derive(Clone, Copy, PartialEq, Eq, Debug)]
struct Ended;

impl From<AllocError> for Ended {
    fn from(_: AllocError) -> Ended {
        Ended
    }
}

impl From<DocFault> for Ended {
    fn from(_: DocFault) -> Ended {
        Ended
    }
}

impl From<io::Error> for Ended {
    fn from(_: io::Error) -> Ended {
        Ended
    }
}

/// The word for a call that answered.
fn answer(is_right: bool) -> &'static str {
    if is_right { "right" } else { "wrong" }
}

/// The word for a call of the decoders that was refused.
fn refusal(fault: CodecFault) -> &'static str {
    match fault {
        CodecFault::OutOfMemory => "out of memory",
        _ => "wrong",
    }
}

/// The bytes, in UTF-8.
fn bytes_of(alloc: Global) -> Result<Vec<u8>, AllocError> {
    let mut bytes = Vec::new(alloc);
    for _ in 0..PARTS {
        bytes.extend_from_slice(PART)?;
    }
    Ok(bytes)
}

/// The word for the result of `decode_whole`.
fn whole(alloc: Global, indexes: &Indexes, bytes: &[u8]) -> &'static str {
    match decode_whole(alloc, indexes, Encoding::Utf8, Bom::Sniff, bytes) {
        Ok(decoded) => answer(decoded.text.as_bytes() == bytes && decoded.errors.is_empty()),
        Err(fault) => refusal(fault),
    }
}

/// The word for the result of `decode_fatal`.
fn fatal(alloc: Global, indexes: &Indexes, bytes: &[u8]) -> &'static str {
    match decode_fatal(alloc, indexes, Encoding::Utf8, Bom::Sniff, bytes) {
        Ok(text) => answer(text.as_bytes() == bytes),
        Err(fault) => refusal(fault),
    }
}

/// The word for the result of `Piece::copy`.
fn copy_of_piece(piece: &Piece) -> &'static str {
    match piece.copy() {
        Ok(copy) => answer(copy.bytes() == piece.bytes()),
        Err(_) => "out of memory",
    }
}

/// The word for the result of `Doc::copy`.
fn copy_of_document(doc: &Doc<'_>) -> &'static str {
    match doc.copy() {
        Ok(copy) => answer(copy.lengths() == doc.lengths()),
        Err(_) => "out of memory",
    }
}

/// A document of the bytes.
fn opened<'i>(alloc: Global, indexes: &'i Indexes, bytes: &[u8]) -> Result<Doc<'i>, DocFault> {
    Doc::open(
        alloc,
        indexes,
        Encoding::Utf8,
        Bom::Sniff,
        bytes,
        &mut meter(),
    )
}

/// Makes each call, and prints what came of it.
fn attempt(rt: &HostRuntime) -> Result<(), Ended> {
    let (alloc, indexes) = (rt.alloc(), Indexes::new());
    let bytes = bytes_of(alloc)?;
    println!(rt; "decode_whole: {}", whole(alloc, &indexes, &bytes))?;
    println!(rt; "decode_fatal: {}", fatal(alloc, &indexes, &bytes))?;
    let piece = Piece::new(alloc, PART)?;
    println!(rt; "Piece::copy: {}", copy_of_piece(&piece))?;
    let doc = opened(alloc, &indexes, &bytes)?;
    println!(rt; "Doc::copy: {}", copy_of_document(&doc))?;
    Ok(())
}

fn main(rt: HostRuntime) -> ExitCode {
    match attempt(&rt) {
        Ok(()) => ExitCode::SUCCESS,
        Err(Ended) => ExitCode::FAILURE,
    }
}
