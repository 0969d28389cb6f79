//! Texts of pieces, and such texts in two parts.
ghost use Rattle.std.specs.Prelude.{◌≡◌, ℕ, ◌+◌, ◌^◌, ◌<◌, ◌≤◌, length, ◌&&◌, false, MatchOption};
ghost use Rattle.std.specs.Str.{chars};
ghost use Rattle.lane_ascii.specs.Marks.{ends_cr, marks};
ghost use Rattle.piece_rope.specs.{Document.text_of, Outcomes.begins_lf};
ghost use Rattle.position_map.specs.{Along.IsAlong, LineEnds.ending_of, Located.IsLocated, Located.IsOfText, Located.axis_of, Located.sum_in};
ghost use Rattle.position_map.specs.{Marked.IsMarkCut, declared.unit.Unit.TheVariants.Utf16, declared.unit.Unit.TheVariants.Utf32};
ghost use Rattle.position_map.specs.declared.unit.Unit.TheVariants.{Utf8};

use crate::parts::Parts;
use crate::unit::Unit;
use lane_ascii::{LineFront, first_line_end, nth_line_end};
use lane_utf::{Select, count_scalars, law_leads, nth_utf16};
use piece_rope::{Axis, Sum, Visits, begins_lf, ends_cr, law_marks, law_sums, split_at_scalar};

/// Finds the text of the first piece after which the axis is above the target. Without such a piece
/// it is the tail's text. Returns the numbers of the text before it too.
pub(crate) fn locate<'d>(
    parts: &Parts<'d, '_>,
    axis: Axis,
    target: u64,
    visits: &mut Visits,
) -> (Sum, &'d str)
    requires { IsOfText axis }
    ensures place { IsLocated axis target (text_of parts.now.doc) result.0 (chars result.1.now) }
    ensures most { (d : ℕ) → length parts.now.pieces < 2 ^ d → visits.new ≤ visits.old + (d + 2) }
    ensures kept { visits.old ≤ visits.new }
{
    law_sums();
    let (before, here) = parts.find_or_tail(axis, target, visits);
    (before, here.text().as_str())
}

/// The axis of a unit.
pub(crate) fn axis_of(unit: Unit) -> Axis
    ensures { result ≡ axis_of unit }
{
    match unit {
        Unit::Utf8 => Axis::Utf8,
        Unit::Utf16 => Axis::Utf16,
        Unit::Utf32 => Axis::Scalar,
    }
}

/// The number of a sum in a unit.
pub(crate) fn sum_in(sum: Sum, unit: Unit) -> u64
    ensures { result ≡ sum_in unit sum }
{
    match unit {
        Unit::Utf8 => sum.utf8 as u64,
        Unit::Utf16 => sum.utf16 as u64,
        Unit::Utf32 => sum.scalars as u64,
    }
}

/// The text of a piece in two parts, and the numbers before it.
#[derive(Clone, Copy)]
pub struct TextCut<'a> {
    /// The numbers of the text before the piece.
    pub before: Sum,
    /// The piece's text before the cut.
    pub front: &'a str,
    /// The number of code points of the first part.
    pub scalars: u64,
    /// The piece's text after it.
    pub rest: &'a str,
}

/// The part of a text before the end of a number of units.
#[derive(Clone, Copy)]
pub enum Along<'a> {
    /// The code points that take just as many.
    At(&'a str),
    /// The end of the units is inside a code point.
    Inside,
    /// The text takes fewer units.
    Past,
}

/// The code points of a text that take `n` units.
pub(crate) fn along_text(text: &str, unit: Unit, n: usize) -> Along<'_>
    ensures { IsAlong unit (chars text.now) n result }
{
    match unit {
        Unit::Utf8 => along_utf8(text, n),
        Unit::Utf16 => along_utf16(text, n),
        Unit::Utf32 => along_utf32(text, n),
    }
}

/// A byte is a unit.
fn along_utf8(text: &str, n: usize) -> Along<'_>
    ensures { IsAlong Utf8 (chars text.now) n result }
{
    if text.is_char_boundary(n) {
        return Along::At(text.split_at(n).0);
    }
    if n > text.len() {
        Along::Past
    } else {
        Along::Inside
    }
}

/// A code point is one unit or two.
fn along_utf16(text: &str, n: usize) -> Along<'_>
    ensures { IsAlong Utf16 (chars text.now) n result }
{
    match nth_utf16(text, n) {
        Select::At(at) => Along::At(text.split_at(at).0),
        Select::Inside => Along::Inside,
        Select::Past => Along::Past,
    }
}

/// A code point is a unit.
fn along_utf32(text: &str, n: usize) -> Along<'_>
    ensures { IsAlong Utf32 (chars text.now) n result }
{
    match split_at_scalar(text, n) {
        Some((front, _)) => Along::At(front),
        None => Along::Past,
    }
}

/// The number of a line end's code points, as far as its piece shows it.
#[derive(Clone, Copy)]
pub enum Ending {
    /// CR LF.
    Two,
    /// CR or LF alone.
    One,
    /// A CR at the end: an LF may follow it.
    Open,
}

/// Splits a text before line mark `n`, and counts the code points before the mark. `None` if there
/// are no more than `n` marks.
pub(crate) fn split_at_mark(text: &str, after_cr: bool, n: usize) -> Option<(&str, &str, usize)>
    ensures { MatchOption result (marks after_cr (chars text.now) ≤ n)
        (λ x. IsMarkCut after_cr (chars text.now) n (chars x.0.now) (chars x.1.now) × (x.2 ≡ length (chars x.0.now))) }
{
    if n == 0 && !after_cr {
        return split_at_first_mark(text);
    }
    law_marks();
    match nth_line_end(text.as_bytes(), after_cr, n) {
        None => None,
        Some(at) => {
            let (front, rest) = text.split_at(at);
            Some((front, rest, count_scalars(front)))
        }
    }
}

/// Like `split_at_mark`, for the first line mark, by one walk.
// In the loop over the lines of a page, where its answer would go through memory.
#[inline(always)]
pub(crate) fn split_at_first_mark(text: &str) -> Option<(&str, &str, usize)>
    ensures { MatchOption result (marks false (chars text.now) ≤ 0)
        (λ x. IsMarkCut false (chars text.now) 0 (chars x.0.now) (chars x.1.now) × (x.2 ≡ length (chars x.0.now))) }
{
    law_marks();
    law_leads();
    match first_line_end(text.as_bytes()) {
        None => None,
        Some(LineFront { at, leads }) => {
            let (front, rest) = text.split_at(at);
            Some((front, rest, leads))
        }
    }
}

/// Whether the two texts part a CR LF. That is so if the first ends in CR and the second begins
/// with LF. If the first is empty, the flag says whether a CR precedes it.
pub(crate) fn parts_cr_lf(front: &str, after_cr: bool, rest: &str) -> bool
    ensures { result ≡ (ends_cr after_cr (chars front.now) && begins_lf (chars rest.now)) }
{
    ends_cr(front, after_cr) && begins_lf(rest)
}

/// The line end at the start of a text, as far as it is known.
// Inlined: called for each line of a page.
#[inline(always)]
pub(crate) fn ending_of(text: &str) -> Ending
    ensures { result ≡ ending_of (chars text.now) }
{
    let bytes = text.as_bytes();
    if bytes.is_empty() || bytes[0] != b'\r' {
        return Ending::One;
    }
    if bytes.len() == 1 {
        return Ending::Open;
    }
    if bytes[1] == b'\n' {
        Ending::Two
    } else {
        Ending::One
    }
}
