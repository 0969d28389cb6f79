//! Line marks of a document.
ghost use Rattle.std.specs.Prelude.{◌≡◌, ℕ, ◌+◌, ◌^◌, ◌<◌, ◌≤◌, ◌==◌, ◌&&◌, ◌++◌, false, drop, MatchOption, length};
ghost use Rattle.std.specs.Str.{chars};
ghost use Rattle.lane_ascii.specs.Marks.{cr, is_mark, marks};
ghost use Rattle.piece_rope.specs.{Document.text_of, Outcomes.begins_lf};
ghost use Rattle.position_map.specs.{LineEnds.IsLastEnd, LineEnds.IsLastLine, Marked.IsCutAtMark, Marked.IsLineStart, Marked.IsMarkAt};
ghost use Rattle.position_map.specs.{declared.unit.Unit.TheVariants.Utf8, declared.unit.Unit.Unit as TextUnit};

use crate::cuts::{Ending, TextCut, ending_of, locate, split_at_mark, sum_in};
use crate::parts::Parts;
use crate::unit::{Point, Unit, units_in};
use piece_rope::{Axis, Visits, begins_lf, law_marks, split_at_scalar};

/// A line mark: its place, and the text of its piece from the mark.
#[derive(Clone, Copy)]
pub struct LineMark<'a> {
    /// The mark's place.
    pub at: Point,
    /// The text of its piece from the mark.
    pub rest: &'a str,
}

/// Line mark `n`, if there are more than `n`.
pub(crate) fn mark<'d>(
    parts: &Parts<'d, '_>,
    unit: Unit,
    n: u64,
    visits: &mut Visits,
) -> Option<LineMark<'d>>
    ensures place { MatchOption result (marks false (text_of parts.now.doc) ≤ n) (IsMarkAt unit (text_of parts.now.doc) n) }
    ensures most { (d : ℕ) → length parts.now.pieces < 2 ^ d → visits.new ≤ visits.old + (d + 2) }
    ensures kept { visits.old ≤ visits.new }
{
    match mark_cut(parts, n, visits) {
        None => None,
        Some(cut) => Some(mark_at(parts, unit, n, cut)),
    }
}

/// The piece of line mark `n`, cut before it, if there are more than `n`.
pub(crate) fn mark_cut<'d>(
    parts: &Parts<'d, '_>,
    n: u64,
    visits: &mut Visits,
) -> Option<TextCut<'d>>
    ensures place { MatchOption result (marks false (text_of parts.now.doc) ≤ n) (IsCutAtMark (text_of parts.now.doc) n) }
    ensures most { (d : ℕ) → length parts.now.pieces < 2 ^ d → visits.new ≤ visits.old + (d + 2) }
    ensures kept { visits.old ≤ visits.new }
{
    let (before, here) = locate(parts, Axis::Mark, n, visits);
    match split_at_mark(here, before.cr_last, (n - before.marks as u64) as usize) {
        None => None,
        Some((front, rest, scalars)) => Some(TextCut {
            before,
            front,
            scalars: scalars as u64,
            rest,
        }),
    }
}

/// Line mark `n`, by the cut before it.
pub(crate) fn mark_at<'d>(
    parts: &Parts<'d, '_>,
    unit: Unit,
    n: u64,
    cut: TextCut<'d>,
) -> LineMark<'d>
    requires { IsCutAtMark (text_of parts.now.doc) n cut }
    ensures { IsMarkAt unit (text_of parts.now.doc) n result }
{
    let _end = parts.end(unit);
    let at = Point {
        scalars: cut.before.scalars as u64 + cut.scalars,
        units: sum_in(cut.before, unit) + units_in(cut.front, unit),
    };
    LineMark { at, rest: cut.rest }
}

/// Whether code point `n` is an LF.
// Rarely needed for a line of a page: only if a piece ends in CR.
#[inline(never)]
fn line_feed_at(parts: &Parts<'_, '_>, n: u64, visits: &mut Visits) -> bool
    ensures is { result ≡ begins_lf (drop n (text_of parts.now.doc)) }
    ensures most { (d : ℕ) → length parts.now.pieces < 2 ^ d → visits.new ≤ visits.old + (d + 2) }
    ensures kept { visits.old ≤ visits.new }
{
    let (before, here) = locate(parts, Axis::Scalar, n, visits);
    match split_at_scalar(here, (n - before.scalars as u64) as usize) {
        Some((_, rest)) => begins_lf(rest),
        None => false,
    }
}

/// Whether the line end at a mark is CR LF.
// Inlined: called for each line of a page.
#[inline(always)]
fn is_cr_lf(parts: &Parts<'_, '_>, m: &LineMark<'_>, visits: &mut Visits) -> bool
    requires room { m.now.at.scalars + 1 < 2 ^ 64 }
    ensures is { (unit : TextUnit) (n : ℕ) (h : IsMarkAt unit (text_of parts.now.doc) n m.now) → result ≡ ((h.c == cr) && begins_lf (h.near ++ h.far)) }
    ensures most { (d : ℕ) → length parts.now.pieces < 2 ^ d → visits.new ≤ visits.old + (d + 2) }
    ensures kept { visits.old ≤ visits.new }
{
    match ending_of(m.rest) {
        Ending::Two => true,
        Ending::One => false,
        Ending::Open => line_feed_at(parts, m.at.scalars + 1, visits),
    }
}

/// The start of the line after mark `n`.
// In the loop over the lines of a page.
#[inline(always)]
pub(crate) fn line_behind(
    parts: &Parts<'_, '_>,
    unit: Unit,
    n: u64,
    m: &LineMark<'_>,
    visits: &mut Visits,
) -> Point
    requires mark { IsMarkAt unit (text_of parts.now.doc) n m.now }
    ensures start { IsLineStart unit (text_of parts.now.doc) (n + 1) result }
    ensures most { (d : ℕ) → length parts.now.pieces < 2 ^ d → visits.new ≤ visits.old + (d + 2) }
    ensures kept { visits.old ≤ visits.new }
{
    let _end = parts.end(unit);
    let length = 1 + u64::from(is_cr_lf(parts, m, visits));
    Point {
        scalars: m.at.scalars + length,
        units: m.at.units + length,
    }
}

/// The start of the line after mark `n`, in another unit than the known.
pub(crate) fn start_in(
    parts: &Parts<'_, '_>,
    unit: Unit,
    n: u64,
    cut: TextCut<'_>,
    start: Point,
) -> Point
    requires cut { IsCutAtMark (text_of parts.now.doc) n cut }
    requires start { IsLineStart Utf8 (text_of parts.now.doc) (n + 1) start }
    ensures { IsLineStart unit (text_of parts.now.doc) (n + 1) result }
{
    let _end = parts.end(unit);
    let m = mark_at(parts, unit, n, cut);
    let length = start.scalars - m.at.scalars;
    Point {
        scalars: start.scalars,
        units: m.at.units + length,
    }
}

/// The text after the last CR or LF, if there is one. It is sought from the text's end, since most
/// lines are far shorter than pieces.
pub(crate) fn last_line(text: &str) -> Option<&str>
    ensures { MatchOption result (marks false (chars text.now) ≡ 0) (λ line. IsLastLine (chars text.now) (chars line.now)) }
{
    law_marks();
    match last_end(text.as_bytes()) {
        None => None,
        Some(at) => Some(text.split_at(at + 1).1),
    }
}

/// The index of the last CR or LF.
fn last_end(bytes: &[u8]) -> Option<usize>
    ensures { MatchOption result (marks false bytes.now ≡ 0) (IsLastEnd bytes.now) }
{
    let mut at = bytes.len();
    'bytes: while at > 0 {
        at -= 1;
        if ends_line(bytes[at]) {
            return Some(at);
        }
    }
    None
}

/// Whether a byte is CR or LF.
fn ends_line(byte: u8) -> bool
    ensures { result ≡ is_mark false byte }
{
    byte == b'\r' || byte == b'\n'
}
