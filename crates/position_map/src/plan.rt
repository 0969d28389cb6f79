//! Planned splices.
ghost use Rattle.std.specs.Prelude.{◌≡◌, ℕ, ◌+◌, ◌*◌, ◌^◌, ◌<◌, ◌≤◌, IfOk, Ok, length, drop, true, false};
ghost use Rattle.std.specs.Str.{chars};
ghost use Rattle.enc_names.specs.declared.encoding.Encoding.TheVariants.{Iso2022Jp};
ghost use Rattle.encoders.specs.{Encode.IsEncoded, Encode.bytes_only, Steps.encoded_iso};
ghost use Rattle.index_loader.specs.Files.{has_files};
ghost use Rattle.piece_rope.specs.Document.{decoded, text_of};
ghost use Rattle.position_map.specs.Plan.{FitsText, IsPlanned, begins_with_escape, bytes_in, inserted_of, is_behind, planned, put_in, replacing};
ghost use Rattle.position_map.specs.{Plan.same_output, Plan.with_return, Whole.pieces_most};

use crate::change_fault::ChangeFault;
use crate::insertion::Insertion;
use crate::parts::Parts;
use crate::places::{Cut, cut_before};
use crate::position::{Position, Range};
use crate::positions::offset_at;
use crate::unit::Unit;
use enc_names::Encoding;
use encoders::{EncodeFault, EncodeMode, encode};
use iso2022jp::{OutputState, encode_from, escape_of};
use piece_rope::{Doc, DocFault, Visits};
use std::alloc::Global;
use std::marker::Model;

/// A splice that replaces a range of the text, and the range.
#[derive(Drop)]
pub struct Plan {
    /// The byte at which it begins.
    pub at: u64,
    /// The number of bytes that it removes.
    pub del: u64,
    /// The bytes that it puts in their place.
    pub ins: PlannedBytes,
    /// The first code point that it replaces.
    pub i: u64,
    /// The code point after the last.
    pub j: u64,
}

/// Bytes to be put into a document. Contracts see their list.
#[derive(Drop)]
pub struct PlannedBytes {
    bytes: Vec<u8>,
}

impl Model for PlannedBytes {
    ghost use Rattle.std.specs.Prelude.{List, ℕ};

    ghost Value = { List ℕ };

    ghost view = { λ s. s.bytes.items };
}

impl PlannedBytes {
    ghost use Rattle.std.specs.Prelude.{◌≡◌};

    /// The same bytes, without a copy.
    pub fn new(bytes: Vec<u8>) -> PlannedBytes
        ensures { result ≡ bytes.items }
    {
        PlannedBytes { bytes }
    }

    /// The bytes.
    pub fn as_slice(&self) -> &[u8]
        ensures { result.now ≡ self.now }
    {
        self.bytes.as_slice()
    }
}

/// Plans the splice that replaces a range of the text by another text or by given bytes (`plan`).
/// Without a range it replaces the whole text. The document has the bytes that the plan removes, and
/// its range (`fits`).
///
/// Refused with `OutOfRange` if the range starts after its end, by line and then by character, as
/// given. Then it is refused with `SplitsCharacter` if an end is inside a code point, and with
/// `SplitsItem` if an end is inside an item of two code points. The encoder's faults come last.
///
/// The new bytes of a text are those in the effective encoding. In ISO-2022-JP they continue in the
/// decoder's output state at the range's start, and lead back to the state at its end. The
/// document's pieces remember both states, so nothing is decoded. The search makes a bounded number
/// of visits (`most`), and their count never falls (`kept`).
pub fn plan_change(
    alloc: Global,
    doc: &Doc<'_>,
    range: Option<Range>,
    unit: Unit,
    insertion: Insertion<'_>,
    visits: &mut Visits,
) -> Result<Plan, ChangeFault>
    ensures plan { IsPlanned (planned doc.now range unit (inserted_of insertion.entry)) result }
    ensures fits { IfOk result (FitsText doc.now) }
    ensures most { (d : ℕ) → pieces_most doc.now < 2 ^ d → visits.new ≤ visits.old + (10 * d + 20) }
    ensures kept { visits.old ≤ visits.new }
{
    let parts = Parts::of(doc);
    let Some(range) = range else {
        let end = parts.end(unit).scalars;
        return replace(alloc, parts, 0, end, insertion, visits);
    };
    if is_behind(range.start, range.end) {
        return Err(ChangeFault::OutOfRange);
    }
    let i = offset_at(&parts, unit, range.start, visits)?;
    let j = offset_at(&parts, unit, range.end, visits)?;
    replace(alloc, parts, i, j, insertion, visits)
}

/// Whether a position follows another, by line and then by character.
fn is_behind(p: Position, q: Position) -> bool
    ensures { result ≡ is_behind p q }
{
    q.line < p.line || (p.line == q.line && q.character < p.character)
}

/// The splice that replaces the bytes of the code points `i..j`.
fn replace(
    alloc: Global,
    parts: Parts<'_, '_>,
    i: u64,
    j: u64,
    insertion: Insertion<'_>,
    visits: &mut Visits,
) -> Result<Plan, ChangeFault>
    requires order { i ≤ j }
    requires within { j ≤ length (text_of parts.doc) }
    ensures plan { IsPlanned (replacing parts.entry.doc (inserted_of insertion.entry) i j) result }
    ensures fits { IfOk result (FitsText parts.entry.doc) }
    ensures most { (d : ℕ) → length parts.entry.pieces < 2 ^ d → visits.new ≤ visits.old + 2 * (d + 2) }
    ensures kept { visits.old ≤ visits.new }
{
    parts.law_in_force();
    let Some(left) = cut_before(&parts, i, visits) else {
        return Err(ChangeFault::SplitsItem);
    };
    let Some(right) = cut_before(&parts, j, visits) else {
        return Err(ChangeFault::SplitsItem);
    };
    let ins = PlannedBytes::new(bytes_in(alloc, parts, left, right, insertion)?);
    let del = right.at.saturating_sub(left.at);
    let at = left.at;
    Ok(Plan { at, del, ins, i, j })
}

/// The bytes that are put in between two cuts.
fn bytes_in(
    alloc: Global,
    parts: Parts<'_, '_>,
    left: Cut,
    right: Cut,
    insertion: Insertion<'_>,
) -> Result<Vec<u8>, EncodeFault>
    requires { right.at ≤ length parts.doc.bytes }
    ensures { IsEncoded
        (bytes_in parts.entry.doc (decoded parts.entry.doc).encoding left.output right.output right.at (inserted_of insertion.entry)) result }
{
    match insertion {
        Insertion::Text(text) => put_in(alloc, parts, left, right, text),
        Insertion::Bytes(bytes) => copied(alloc, bytes),
    }
}

/// The same bytes, as they are.
fn copied(alloc: Global, bytes: &[u8]) -> Result<Vec<u8>, EncodeFault>
    ensures { IsEncoded (Ok bytes.now) result }
{
    let mut copy = Vec::with_capacity(alloc, bytes.len())?;
    copy.extend_from_slice(bytes)?;
    Ok(copy)
}

/// The bytes of a new text between two cuts, in the effective encoding.
fn put_in(
    alloc: Global,
    parts: Parts<'_, '_>,
    left: Cut,
    right: Cut,
    text: &str,
) -> Result<Vec<u8>, EncodeFault>
    requires { right.at ≤ length parts.doc.bytes }
    ensures { IsEncoded (put_in parts.entry.doc (decoded parts.entry.doc).encoding left.output right.output right.at (chars text.now)) result }
{
    parts.law_in_force();
    match parts.encoding() {
        Encoding::Iso2022Jp => put_iso(alloc, parts, left, right, text),
        encoding => encode(alloc, encoding, parts.indexes(), EncodeMode::Fatal, text),
    }
}

/// Like `put_in`, for ISO-2022-JP. The bytes begin in the output state of the left cut, and lead
/// back to that of the right one unless an escape follows anyway.
fn put_iso(
    alloc: Global,
    parts: Parts<'_, '_>,
    left: Cut,
    right: Cut,
    text: &str,
) -> Result<Vec<u8>, EncodeFault>
    requires files { has_files parts.doc.indexes Iso2022Jp ≡ true }
    requires within { right.at ≤ length parts.doc.bytes }
    ensures { IsEncoded
        (bytes_only (with_return right.output (drop right.at parts.entry.doc.bytes)
        (encoded_iso parts.entry.doc.indexes left.output (chars text.now) false false))) result }
{
    let (mut bytes, state) = encode_from(alloc, parts.indexes(), left.output, text, false, false)?;
    if same_output(state, right.output) {
        return Ok(bytes);
    }
    let Ok(escape_follows) = escape_begins(parts, right.at) else {
        return Err(EncodeFault::OutOfMemory);
    };
    if escape_follows {
        return Ok(bytes);
    }
    bytes.extend_from_slice(&escape_of(right.output))?;
    Ok(bytes)
}

/// Whether two output states are the same.
fn same_output(s: OutputState, r: OutputState) -> bool
    ensures { result ≡ same_output s r }
{
    s == r
}

/// Whether bytes begin with an escape.
fn begins_with_escape(bytes: &[u8]) -> bool
    ensures { result ≡ begins_with_escape bytes.now }
{
    bytes.starts_with(&escape_of(OutputState::Ascii))
        || bytes.starts_with(&escape_of(OutputState::Roman))
        || bytes.starts_with(&escape_of(OutputState::Katakana))
        || bytes.starts_with(&escape_of(OutputState::Jis0208))
        || bytes.starts_with(&[0x1B, 0x24, 0x40])
}

/// Whether an escape begins at a byte of a document.
fn escape_begins(parts: Parts<'_, '_>, at: u64) -> Result<bool, DocFault>
    requires { at ≤ length parts.doc.bytes }
    ensures { IfOk result (λ begins. begins ≡ begins_with_escape (drop at parts.entry.doc.bytes)) }
{
    let bytes = parts.three_from(at)?;
    Ok(begins_with_escape(bytes.as_slice()))
}
