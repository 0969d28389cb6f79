//! Documents, compared with decoding from scratch.

use codec::decode_whole;
use enc_names::Setting;
use piece_rope::{Axis, Doc, LONGEST_PIECE, SHORTEST_PIECE};
use std::alloc::Global;
use sum_tree::visits;

/// Whether the document answers everything as decoding these bytes from scratch does. The bytes are
/// decoded under a setting. `None` if memory is refused.
pub fn agrees(alloc: Global, doc: &Doc<'_>, setting: Setting, bytes: &[u8]) -> Option<bool> {
    let Setting { given, bom } = setting;
    let scratch = decode_whole(alloc, doc.indexes(), given, bom, bytes).ok()?;
    let lengths = doc.lengths();
    let text = doc.text(0, lengths.scalars).ok()?;
    let errors = doc.errors(0, lengths.errors).ok()?;
    let source = doc.source(0, lengths.bytes).ok()?;
    let same_text = text.as_str() == scratch.text.as_str();
    let same_errors = errors.as_slice() == scratch.errors.as_slice();
    let same_first = doc.fatal() == scratch.errors.first().copied();
    let same_mark = doc.encoding() == scratch.encoding && doc.bom_len() == scratch.bom_len;
    let same_bytes = source.as_slice() == bytes;
    let same_lengths = lengths.utf8 == scratch.text.len() as u64;
    Some(
        same_text
            && same_errors
            && same_first
            && same_mark
            && same_bytes
            && same_lengths
            && pieces_are_sized(doc),
    )
}

/// Whether no piece is too long and, if there are several, none is too short.
pub fn pieces_are_sized(doc: &Doc<'_>) -> bool {
    let finder = doc.finder();
    let total = doc.lengths().bytes;
    let mut at = 0;
    let mut several = false;
    let mut least = total;
    // No document has more pieces than bytes.
    for _ in 0..=total {
        let (before, found) = finder.find(&Axis::Byte, at, &mut visits());
        let Some(piece) = found else { break };
        let bytes = piece.here().sum().bytes as u64;
        if bytes > LONGEST_PIECE as u64 {
            return false;
        }
        several = several || at > 0;
        least = least.min(bytes);
        at = (before.bytes as u64).saturating_add(bytes);
    }
    at == total && (!several || least >= SHORTEST_PIECE as u64)
}
