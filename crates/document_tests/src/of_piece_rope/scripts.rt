//! Documents that are played: what is done to them, and what is asserted of them, are rows of a
//! test. Each call on a document is in a function of its own that promises nothing, since a function
//! that has many promises about a document is long to prove.

use super::*;
use crate::indexes::small_indexes;
use oracle::{agrees, pieces_are_sized};
use piece_rope::Axis;
use sum_tree::visits;

/// A step: something done to a document, or asserted about it.
#[derive(Clone, Copy)]
pub enum Step {
    /// A splice: its offset, the number of replaced bytes, and the new bytes.
    Splice(u64, u64, &'static [u8]),
    /// A splice, and the most bytes that it decodes.
    Few(u64, u64, &'static [u8], u64),
    /// A splice, and the fewest bytes that it decodes.
    Many(u64, u64, &'static [u8], u64),
    /// A splice that is out of range, and decodes nothing.
    Refused(u64, u64, &'static [u8]),
    /// A splice, and which code points it replaces by which.
    Kept(u64, u64, &'static [u8], u64, u64, &'static str),
    /// An edit of several parts begins.
    Begin,
    /// The edit is kept.
    Commit,
    /// The edit is taken back.
    RollBack,
    /// The text from one code point to another.
    Text(u64, u64, &'static str),
    /// All of the text, without a leading mark, and its number of code points.
    AllText(&'static str, u64),
    /// The number of bytes.
    Bytes(u64),
    /// The number of code points.
    Scalars(u64),
    /// The document is that of the bytes with which it was opened.
    AsOpened,
    /// Each piece has a length that pieces have.
    Sized,
    /// Each piece has as many bytes as its text in UTF-8.
    Whole,
}

/// A document.
#[derive(Clone, Copy)]
pub struct Opening<'a> {
    pub given: Encoding,
    pub bom: Bom,
    pub bytes: &'a [u8],
}

/// Plays the steps on the document, and returns the bytes of the last. They are the bytes that it
/// decoded.
pub fn play(
    rt: &impl Abort,
    alloc: Global,
    opening: &Opening<'_>,
    steps: &[Step],
) -> Result<u64, Fail> {
    let indexes = small_indexes(alloc)?;
    let mut doc = open(alloc, &indexes, opening)?;
    Ok(take_all(rt, alloc, &mut doc, opening, steps)?)
}

/// Copies the document, plays steps on it, and then steps on the copy.
pub fn play_with_copy(
    rt: &impl Abort,
    alloc: Global,
    opening: &Opening<'_>,
    steps: &[Step],
    on_copy: &[Step],
) -> Result<u64, Fail> {
    let indexes = small_indexes(alloc)?;
    let mut doc = open(alloc, &indexes, opening)?;
    let mut copy = doc.copy()?;
    take_all(rt, alloc, &mut doc, opening, steps)?;
    Ok(take_all(rt, alloc, &mut copy, opening, on_copy)?)
}

fn open<'i>(
    alloc: Global,
    indexes: &'i Indexes,
    opening: &Opening<'_>,
) -> Result<Doc<'i>, DocFault> {
    opened(alloc, indexes, opening.given, opening.bom, opening.bytes)
}

/// Takes the steps in order, and returns how many bytes the last of them decoded.
fn take_all(
    rt: &impl Abort,
    alloc: Global,
    doc: &mut Doc<'_>,
    opening: &Opening<'_>,
    steps: &[Step],
) -> Result<u64, DocFault> {
    let mut decoded = 0;
    for (number, step) in steps.iter().enumerate() {
        let mut meter = meter();
        let right = take(alloc, doc, opening, *step, &mut meter)?;
        decoded = meter.decoded();
        assert!(rt; right, "step {number}, which decoded {decoded} bytes");
    }
    Ok(decoded)
}

/// Takes a step, and returns whether it is right.
fn take(
    alloc: Global,
    doc: &mut Doc<'_>,
    opening: &Opening<'_>,
    step: Step,
    meter: &mut Meter,
) -> Result<bool, DocFault> {
    match step {
        Step::Splice(at, del, ins) => is_spliced(doc, at, del, ins, u64::MAX, meter),
        Step::Few(at, del, ins, most) => is_spliced(doc, at, del, ins, most, meter),
        Step::Many(at, del, ins, least) => is_decoded(doc, at, del, ins, least, meter),
        Step::Refused(at, del, ins) => Ok(is_out_of_range(doc, at, del, ins, meter)),
        Step::Kept(at, del, ins, i, j, text) => is_kept(doc, (at, del, ins), (i, j, text), meter),
        Step::Begin | Step::Commit | Step::RollBack => Ok(is_marked(doc, step)),
        _ => is_so(alloc, doc, opening, step),
    }
}

/// Begins an edit of several parts or ends it.
fn is_marked(doc: &mut Doc<'_>, step: Step) -> bool {
    match step {
        Step::Begin => doc.begin(),
        Step::Commit => doc.commit(),
        _ => doc.roll_back(),
    }
    true
}

/// Whether what a step says of a document is so.
fn is_so(
    alloc: Global,
    doc: &Doc<'_>,
    opening: &Opening<'_>,
    step: Step,
) -> Result<bool, DocFault> {
    match step {
        Step::Text(from, to, text) => has_text(doc, from, to, text),
        Step::AllText(text, scalars) => is_all_text(doc, text, scalars),
        Step::Bytes(bytes) => Ok(doc.lengths().bytes == bytes),
        Step::Scalars(scalars) => Ok(doc.lengths().scalars == scalars),
        Step::AsOpened => Ok(is_as_opened(alloc, doc, opening)),
        Step::Sized => Ok(pieces_are_sized(doc)),
        Step::Whole => Ok(pieces_are_whole(doc)),
        _ => Ok(false),
    }
}

/// Makes the splice, and returns whether it decoded at most `most` bytes.
fn is_spliced(
    doc: &mut Doc<'_>,
    at: u64,
    del: u64,
    ins: &[u8],
    most: u64,
    meter: &mut Meter,
) -> Result<bool, DocFault> {
    splice(doc, at, del, ins, meter)?;
    Ok(meter.decoded() <= most)
}

/// Makes the splice, and returns whether it decoded at least `least` bytes.
fn is_decoded(
    doc: &mut Doc<'_>,
    at: u64,
    del: u64,
    ins: &[u8],
    least: u64,
    meter: &mut Meter,
) -> Result<bool, DocFault> {
    splice(doc, at, del, ins, meter)?;
    Ok(meter.decoded() >= least)
}

fn splice(
    doc: &mut Doc<'_>,
    at: u64,
    del: u64,
    ins: &[u8],
    meter: &mut Meter,
) -> Result<(), DocFault> {
    doc.splice(at, del, ins, meter)
}

/// Whether the splice is refused as out of range, and decodes nothing.
fn is_out_of_range(doc: &mut Doc<'_>, at: u64, del: u64, ins: &[u8], meter: &mut Meter) -> bool {
    splice(doc, at, del, ins, meter) == Err(DocFault::OutOfRange) && meter.decoded() == 0
}

/// Makes the splice that is to keep the text.
fn is_kept(
    doc: &mut Doc<'_>,
    (at, del, ins): (u64, u64, &[u8]),
    (i, j, text): (u64, u64, &str),
    meter: &mut Meter,
) -> Result<bool, DocFault> {
    doc.splice_kept(at, del, ins, i, j, text, meter)?;
    Ok(true)
}

/// Whether the document has this text from one code point to another.
fn has_text(doc: &Doc<'_>, from: u64, to: u64, text: &str) -> Result<bool, DocFault> {
    Ok(doc.text(from, to)?.as_str() == text)
}

/// Whether this is all text, of `scalars` code points. It must not begin with a mark.
fn is_all_text(doc: &Doc<'_>, text: &str, scalars: u64) -> Result<bool, DocFault> {
    let same = has_text(doc, 0, scalars, text)?;
    Ok(same && doc.lengths().scalars == scalars && doc.bom_len() == 0)
}

/// Whether the document is that of the bytes with which it was opened.
fn is_as_opened(alloc: Global, doc: &Doc<'_>, opening: &Opening<'_>) -> bool {
    let setting = Setting::new(opening.given, opening.bom);
    agrees(alloc, doc, setting, opening.bytes) == Some(true)
}

/// Whether each piece has as many bytes as its text in UTF-8.
fn pieces_are_whole(doc: &Doc<'_>) -> bool {
    let finder = doc.finder();
    let total = doc.lengths().bytes;
    let mut at = 0;
    // No document has more pieces than bytes.
    for _ in 0..=total {
        let (before, found) = finder.find(&Axis::Byte, at, &mut visits());
        let Some(piece) = found else { break };
        let sum = piece.here().sum();
        if sum.utf8 != sum.bytes {
            return false;
        }
        at = before.bytes.saturating_add(sum.bytes) as u64;
    }
    at == total
}
