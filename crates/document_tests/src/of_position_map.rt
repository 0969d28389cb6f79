//! The visits of calls on positions in a document of the greatest length.

use decoder_core::meter;
use enc_names::{Bom, Encoding};
use index_loader::Indexes;
use piece_rope::{Axis, DOCUMENT_LIMIT, Doc, DocFault};
use position_map::{
    Position, Unit, byte_to_scalar, convert, line, scalar_to_place, to_offset, to_position,
};
use std::alloc::{AllocError, Global};
use std::process::Abort;
use std::test::Fail;
use sum_tree::visits;

/// The most visits of one call.
const MOST: u64 = 72;

/// Counts the pieces of a document, up to 40,000.
fn count_pieces(doc: &Doc<'_>) -> u64 {
    let finder = doc.finder();
    let mut at = 0;
    for count in 0..40_000u64 {
        let (before, found) = finder.find(&Axis::Byte, at, &mut visits());
        let Some(piece) = found else {
            return count;
        };
        at = before.bytes.saturating_add(piece.here().sum().bytes) as u64;
    }
    40_000
}

/// Asserts that no seek visits more nodes, at a place in the document. The place is in hundredths
/// of the document.
fn visits_few(rt: &impl Abort, doc: &Doc<'_>, hundredths: u64) {
    let lengths = doc.lengths();
    let number = lengths.lines.saturating_mul(hundredths) / 100;
    let offset = lengths.scalars.saturating_mul(hundredths) / 100;
    let at = lengths.bytes.saturating_mul(hundredths) / 100;
    few_by_lines(rt, doc, number);
    few_by_offsets(rt, doc, offset, at);
}

/// Asserts few visits of the calls with the number of a line.
fn few_by_lines(rt: &impl Abort, doc: &Doc<'_>, number: u64) {
    assert!(rt; of_line(doc, number) <= MOST);
    assert!(rt; of_offset(doc, number) <= MOST);
}

/// Asserts few visits of the calls with an offset or a byte.
fn few_by_offsets(rt: &impl Abort, doc: &Doc<'_>, offset: u64, at: u64) {
    assert!(rt; of_position(doc, offset) <= MOST);
    assert!(rt; of_scalar(doc, at) <= MOST);
    assert!(rt; of_place(doc, offset) <= MOST);
    assert!(rt; of_units(doc, offset) <= MOST);
}

/// Counts the nodes that `line` visits. Each call is in a function of its own that guarantees nothing,
/// since proving a function with many guarantees takes long.
fn of_line(doc: &Doc<'_>, number: u64) -> u64 {
    let mut visited = visits();
    line(doc, number, &mut visited);
    visited.visited()
}

/// Counts the nodes that `to_offset` visits.
fn of_offset(doc: &Doc<'_>, number: u64) -> u64 {
    let position = Position {
        line: number,
        character: 3,
    };
    let mut visited = visits();
    let _ = to_offset(doc, position, Unit::Utf16, &mut visited);
    visited.visited()
}

/// Counts the nodes that `to_position` visits.
fn of_position(doc: &Doc<'_>, offset: u64) -> u64 {
    let mut visited = visits();
    let _ = to_position(doc, offset, Unit::Utf16, &mut visited);
    visited.visited()
}

/// Counts the nodes that `byte_to_scalar` visits.
fn of_scalar(doc: &Doc<'_>, at: u64) -> u64 {
    let mut visited = visits();
    let _ = byte_to_scalar(doc, at, &mut visited);
    visited.visited()
}

/// Counts the nodes that `scalar_to_place` visits.
fn of_place(doc: &Doc<'_>, offset: u64) -> u64 {
    let mut visited = visits();
    scalar_to_place(doc, offset, &mut visited);
    visited.visited()
}

/// Counts the nodes that `convert` visits.
fn of_units(doc: &Doc<'_>, offset: u64) -> u64 {
    let mut visited = visits();
    let _ = convert(doc, offset, Unit::Utf32, Unit::Utf16, &mut visited);
    visited.visited()
}

/// `count` lines of 16 bytes.
fn lines(alloc: Global, count: usize) -> Result<Vec<u8>, AllocError> {
    let line = "ab\u{e9}\u{1f600}\u{3042}cde\r\n".as_bytes();
    let mut bytes = Vec::with_capacity(alloc, DOCUMENT_LIMIT)?;
    for _ in 0..count {
        bytes.extend_from_slice(line)?;
    }
    Ok(bytes)
}

/// The document of these bytes, which are UTF-8.
fn opened<'i>(alloc: Global, indexes: &'i Indexes, bytes: &[u8]) -> Result<Doc<'i>, DocFault> {
    Doc::open(
        alloc,
        indexes,
        Encoding::Utf8,
        Bom::Sniff,
        bytes,
        &mut meter(),
    )
}

/// Asserts that calls in a document of the greatest length visit few nodes.
fn visits_few_anywhere(rt: &impl Abort, doc: &Doc<'_>) {
    assert!(rt; doc.lengths().bytes == 16_777_216);
    assert!(rt; count_pieces(doc) <= 32_769);
    for hundredths in 0..101 {
        visits_few(rt, doc, hundredths);
    }
}

#[test]
fn few_nodes_of_32769_pieces(rt: HostRuntime) -> Result<(), Fail> {
    let indexes = Indexes::new();
    let bytes = lines(rt.alloc(), 1_048_576)?;
    let doc = opened(rt.alloc(), &indexes, &bytes)?;
    visits_few_anywhere(&rt, &doc);
    Ok(())
}
