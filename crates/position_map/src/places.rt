//! Places of code points in a document's bytes, and cuts between them.
ghost use Rattle.std.specs.Prelude.{◌≡◌, ℕ, ◌+◌, ◌*◌, ◌^◌, ◌<◌, ◌≤◌, ◌-◌, List, ◌∷◌, ◌++◌, [], length, get_or, Some};
ghost use Rattle.piece_rope.specs.{Chained.last_to, Decode.Placed, Document.decoded, Document.text_of, Made.AreMade, Made.ends_at, Outcomes.Ended};
ghost use Rattle.piece_rope.specs.{Outcomes.Outcome, Outcomes.total_of, Search.Byte, Sizes.longest};
ghost use Rattle.position_map.specs.{Found.IsFoundOutcome, ItemCuts.cut_behind, ItemCuts.cut_of, Places.place_of, Places.scalar_of_byte};
ghost use Rattle.position_map.specs.{Places.scalars_until, Placing.HasItem, Placing.bom_of, Whole.pieces_most};

use crate::fault::PosFault;
use crate::parts::Parts;
use crate::unit::Unit;
use enc_names::Place;
use iso2022jp::OutputState;
use piece_rope::{Axis, Doc, Ended, Outcome, Sum, Visits, law_chained, law_items};

/// The number of code points that a byte offset names (`scalar`). They are those of the items that
/// end at or before it (docs/ENCODINGS.md, "Places"). Refused with `OutOfRange` past the bytes. The
/// search makes a bounded number of visits (`most`), and their count never falls (`kept`).
pub fn byte_to_scalar(doc: &Doc<'_>, at: u64, visits: &mut Visits) -> Result<u64, PosFault>
    ensures scalar { result ≡ scalar_of_byte (length doc.now.bytes) (decoded doc.now).items at }
    ensures most { (d : ℕ) → pieces_most doc.now < 2 ^ d → visits.new ≤ visits.old + (4 * d + 8) }
    ensures kept { visits.old ≤ visits.new }
{
    let parts = Parts::of(doc);
    let length = parts.bytes();
    let end = parts.end(Unit::Utf32);
    if at > length {
        return Err(PosFault::OutOfRange);
    }
    let (before, found) = parts.find(Axis::Byte, at, visits);
    match found {
        None => Ok(end.scalars),
        Some(here) => Ok(scalars_until(&parts, at, before, here, visits)),
    }
}

/// Counts the code points in items that end at or before a byte. The byte is in this piece. Counted
/// are the items of the pieces before, and some of this piece and of the next one, which may end
/// before it begins.
fn scalars_until(
    parts: &Parts<'_, '_>,
    at: u64,
    before: Sum,
    here: &Outcome,
    visits: &mut Visits,
) -> u64
    requires found { IsFoundOutcome Byte at parts.now.pieces before (Some here.now) }
    requires small { here.now.sum.bytes ≤ longest }
    ensures scalars { result ≡ scalars_until at (decoded parts.now.doc).items }
    ensures most { (d : ℕ) → length parts.now.pieces < 2 ^ d → visits.new ≤ visits.old + (d + 2) }
    ensures kept { visits.old ≤ visits.new }
{
    let _length = parts.bytes();
    let _end = parts.end(Unit::Utf32);
    let start = before.bytes as u64 + here.sum().bytes as u64;
    let next = piece_from(parts, start, visits);
    let inside = here.scalars_before((at - before.bytes as u64) as i64);
    let ahead = next.scalars_before(-((start - at) as i64));
    before.scalars as u64 + inside + ahead
}

/// The piece that begins at a byte, or the tail.
fn piece_from<'d>(parts: &Parts<'d, '_>, start: u64, visits: &mut Visits) -> &'d Outcome
    ensures piece { (front back : List Outcome) → parts.now.pieces ≡ front ++ back → (total_of front).bytes ≡ start
        → (rest : List Outcome) × (back ++ parts.now.tail ∷ [] ≡ result.now ∷ rest) }
    ensures most { (d : ℕ) → length parts.now.pieces < 2 ^ d → visits.new ≤ visits.old + (d + 2) }
    ensures kept { visits.old ≤ visits.new }
{
    let tail = parts.tail();
    let (_, found) = parts.find(Axis::Byte, start, visits);
    found.unwrap_or(tail)
}

/// The place of code point `n`, which is that of its item (`place`). An error has one, and two code
/// points of one item share theirs (docs/ENCODINGS.md, "Places"). Past the text there is none. The
/// search makes a bounded number of visits (`most`), and their count never falls (`kept`).
pub fn scalar_to_place(doc: &Doc<'_>, n: u64, visits: &mut Visits) -> Option<Place>
    ensures place { result ≡ place_of (decoded doc.now).items n }
    ensures most { (d : ℕ) → pieces_most doc.now < 2 ^ d → visits.new ≤ visits.old + (4 * d + 8) }
    ensures kept { visits.old ≤ visits.new }
{
    let parts = Parts::of(doc);
    place_at(&parts, n, visits)
}

/// The place of code point `n`.
fn place_at(parts: &Parts<'_, '_>, n: u64, visits: &mut Visits) -> Option<Place>
    ensures place { result ≡ place_of (decoded parts.now.doc).items n }
    ensures most { (d : ℕ) → length parts.now.pieces < 2 ^ d → visits.new ≤ visits.old + 2 * (d + 2) }
    ensures kept { visits.old ≤ visits.new }
{
    law_items();
    law_chained();
    let (before, here) = parts.find_or_tail(Axis::Scalar, n, visits);
    match here.item_of(n - before.scalars as u64) {
        None => None,
        Some(k) => {
            let to = end_at(before.bytes as u64, here, k);
            let from = start_of(parts, before, here, k, visits);
            Some(Place { from, to })
        }
    }
}

/// The byte at which item `k` of a piece begins: where the one before ends, which may be in a piece
/// in front.
fn start_of(parts: &Parts<'_, '_>, before: Sum, here: &Outcome, k: u64, visits: &mut Visits) -> u64
    requires within { k < length here.now.items }
    ensures start { (front back : List Outcome) (left ps : List Placed) (n : ℕ) → parts.now.pieces ≡ front ++ back
        → before ≡ total_of front → AreMade 0 left front
        → (h : HasItem before.bytes ps here.now.items n k) → result ≡ last_to (bom_of parts.now) (left ++ h.front) }
    ensures most { (d : ℕ) → length parts.now.pieces < 2 ^ d → visits.new ≤ visits.old + (d + 2) }
    ensures kept { visits.old ≤ visits.new }
{
    law_chained();
    if k == 0 {
        return last_end(parts, before.scalars as u64, visits);
    }
    end_at(before.bytes as u64, here, k - 1)
}

/// The byte at which the first `count` code points end. It is the end of the item of the last of
/// them, or the start of the text.
pub(crate) fn last_end(parts: &Parts<'_, '_>, count: u64, visits: &mut Visits) -> u64
    ensures end { (front back : List Outcome) (ps : List Placed) → parts.now.pieces ≡ front ++ back → (total_of front).scalars ≡ count → AreMade 0 ps front
        → result ≡ last_to (bom_of parts.now) ps }
    ensures most { (d : ℕ) → length parts.now.pieces < 2 ^ d → visits.new ≤ visits.old + (d + 2) }
    ensures kept { visits.old ≤ visits.new }
{
    law_chained();
    let bom = parts.bom();
    if count == 0 {
        return bom;
    }
    let (before, found) = parts.find(Axis::Scalar, count - 1, visits);
    match found {
        None => bom,
        Some(piece) => last_in(before.bytes as u64, piece),
    }
}

/// The byte at which the last item of a piece ends.
fn last_in(base: u64, piece: &Outcome) -> u64
    ensures { (d : Ended) → 0 < length piece.now.items → result ≡ ends_at base (get_or piece.now.items (length piece.now.items - 1) d).end }
{
    match piece.items().last() {
        Some(item) => base.saturating_add_signed(item.end),
        None => base,
    }
}

/// The byte at which item `k` of a piece ends.
fn end_at(base: u64, piece: &Outcome, k: u64) -> u64
    requires within { k < length piece.now.items }
    ensures { (d : Ended) → result ≡ ends_at base (get_or piece.now.items k d).end }
{
    match piece.items().get(k) {
        Some(item) => base.saturating_add_signed(item.end),
        None => base,
    }
}

/// A place in a document's bytes between two code points of its text.
#[derive(Clone, Copy)]
pub struct Cut {
    /// The byte.
    pub at: u64,
    /// The output state of the decoder there.
    pub output: OutputState,
}

/// The cut before code point number `n`. None inside an item of two code points.
pub(crate) fn cut_before(parts: &Parts<'_, '_>, n: u64, visits: &mut Visits) -> Option<Cut>
    requires { n ≤ length (text_of parts.now.doc) }
    ensures cut { result ≡ cut_of parts.now.doc n }
    ensures most { (d : ℕ) → length parts.now.pieces < 2 ^ d → visits.new ≤ visits.old + (d + 2) }
    ensures kept { visits.old ≤ visits.new }
{
    if n == 0 {
        return Some(parts.first_cut());
    }
    let (before, here) = parts.find_or_tail(Axis::Scalar, n - 1, visits);
    cut_behind(before.bytes as u64, here, n - before.scalars as u64)
}

/// The cut after the first `n` code points of a piece, at least one. The piece begins at byte
/// `base`.
fn cut_behind(base: u64, piece: &Outcome, n: u64) -> Option<Cut>
    requires { 0 < n }
    ensures { result ≡ cut_behind base piece.now.items n }
{
    law_items();
    let Some(last) = piece.item_of(n - 1) else {
        return None;
    };
    if piece.item_of(n) == Some(last) {
        return None;
    }
    let Some(item) = piece.items().get(last) else {
        return None;
    };
    Some(cut_at(base, item))
}

/// The cut at the end of an item. Its piece begins at byte `base`.
fn cut_at(base: u64, item: Ended) -> Cut
    ensures { result ≡ record { at = ends_at base item.end; output = item.output } }
{
    Cut {
        at: base.saturating_add_signed(item.end),
        output: item.output,
    }
}
