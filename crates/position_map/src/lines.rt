//! Lines of a document's text.
ghost use Rattle.std.specs.Prelude.{◌≡◌, ℕ, ◌+◌, ◌*◌, ◌^◌, ◌<◌, ◌≤◌, false, length, Some, None, slice_get, MatchOption, is_some, if◌then◌else◌};
ghost use Rattle.std.specs.Str.{chars};
ghost use Rattle.lane_ascii.specs.Marks.{marks};
ghost use Rattle.piece_rope.specs.Document.{text_of};
ghost use Rattle.position_map.specs.{Cuts.IsRestBehind, Lines.lines_of, Marked.IsLineEnd, Marked.IsLineStart, Marked.IsMarkAt, NextLines.IsAhead};
ghost use Rattle.position_map.specs.{NextLines.IsNextLine, Whole.pieces_most, declared.unit.Unit.TheVariants.Utf8};

use crate::cuts::split_at_first_mark;
use crate::marks::{LineMark, line_behind, mark};
use crate::parts::Parts;
use crate::unit::{Point, Unit, units_in};
use piece_rope::{Doc, Visits, split_at_scalar};
use std::marker::Model;

/// The number of lines (LSP 3.17, "Text Documents") (`lines`): the number of line ends plus one
/// (`ends`).
pub fn line_count(doc: &Doc<'_>) -> u64
    ensures lines { result ≡ length (lines_of (text_of doc.now)) }
    ensures ends { result ≡ marks false (text_of doc.now) + 1 }
{
    let parts = Parts::of(doc);
    parts.line_count()
}

/// The start of line `n` and its end without the line end (`line`). Both are in code points from
/// the text's start. Past the last line there is none. Lines are cut at CR LF, CR and LF (LSP 3.17,
/// "Text Documents"). The search makes a bounded number of visits (`most`), and their count never
/// falls (`kept`).
pub fn line(doc: &Doc<'_>, n: u64, visits: &mut Visits) -> Option<(u64, u64)>
    ensures line { MatchOption result (slice_get (lines_of (text_of doc.now)) n ≡ None)
        (λ l. slice_get (lines_of (text_of doc.now)) n ≡ Some (record { start = l.0; end = l.1 })) }
    ensures most { (d : ℕ) → pieces_most doc.now < 2 ^ d → visits.new ≤ visits.old + (4 * d + 8) }
    ensures kept { visits.old ≤ visits.new }
{
    let parts = Parts::of(doc);
    let last = parts.end(Unit::Utf8).scalars;
    match first_line(&parts, n, visits) {
        None => None,
        Some(at) => match next_mark(&parts, n, at, visits) {
            None => Some((at.start.scalars, last)),
            Some(m) => Some((at.start.scalars, m.at.scalars)),
        },
    }
}

/// The start of line `n`, if there is one.
pub(crate) fn line_start(
    parts: &Parts<'_, '_>,
    unit: Unit,
    n: u64,
    visits: &mut Visits,
) -> Option<Point>
    ensures start { MatchOption result (length (lines_of (text_of parts.now.doc)) ≤ n) (IsLineStart unit (text_of parts.now.doc) n) }
    ensures most { (d : ℕ) → length parts.now.pieces < 2 ^ d → visits.new ≤ visits.old + 2 * (d + 2) }
    ensures kept { visits.old ≤ visits.new }
{
    if n == 0 {
        return Some(Point {
            scalars: 0,
            units: 0,
        });
    }
    match mark(parts, unit, n - 1, visits) {
        None => None,
        Some(m) => Some(line_behind(parts, unit, n - 1, &m, visits)),
    }
}

/// The end of line `n`.
pub(crate) fn line_end(parts: &Parts<'_, '_>, unit: Unit, n: u64, visits: &mut Visits) -> Point
    ensures end { n < length (lines_of (text_of parts.now.doc)) → IsLineEnd unit (text_of parts.now.doc) n result }
    ensures most { (d : ℕ) → length parts.now.pieces < 2 ^ d → visits.new ≤ visits.old + (d + 2) }
    ensures kept { visits.old ≤ visits.new }
{
    match mark(parts, unit, n, visits) {
        None => parts.end(unit),
        Some(m) => m.at,
    }
}

/// The lines of a document from one of them, each found from the one before. A line is sought in
/// the rest of the piece first. Contracts see the document and the number of the next line.
#[derive(Drop)]
pub struct LineCursor<'d, 'i> {
    parts: Parts<'d, 'i>,
    number: u64,
    next: Option<NextLine<'d>>,
}

impl<'d, 'i> Model for LineCursor<'d, 'i> {
    ghost use Rattle.piece_rope.specs.Document.{text_of};
    ghost use Rattle.position_map.specs.NextLines.{LinesFrom, IsAhead};

    ghost Value = { LinesFrom };

    ghost view = { λ l. record { doc = l.parts.doc; number = l.number } };

    ghost invariant = { λ l. IsAhead (text_of l.parts.doc) l.number l.next };
}

impl<'d, 'i> LineCursor<'d, 'i> {
    /// Makes a cursor before line `n` (`at`). The search makes a bounded number of visits (`most`),
    /// and their count never falls (`kept`).
    pub fn at(doc: &'d Doc<'i>, n: u64, visits: &mut Visits) -> LineCursor<'d, 'i>
        ensures at { result ≡ record { doc = doc.now; number = n } }
        ensures most { (d : ℕ) → pieces_most doc.now < 2 ^ d → visits.new ≤ visits.old + 2 * (d + 2) }
        ensures kept { visits.old ≤ visits.new }
    {
        let parts = Parts::of(doc);
        let next = first_line(&parts, n, visits);
        LineCursor {
            parts,
            number: n,
            next,
        }
    }

    /// Returns the next line as `line` does, and moves past it (`number`). The document stays
    /// (`doc`). The search makes a bounded number of visits (`most`), and their count never falls
    /// (`kept`). `None` means that there is no further line (`line`).
    pub fn next(&mut self, visits: &mut Visits) -> Option<(u64, u64)>
        ensures line { MatchOption result (slice_get (lines_of (text_of self.old.doc)) self.old.number ≡ None)
            (λ l. slice_get (lines_of (text_of self.old.doc)) self.old.number ≡ Some (record { start = l.0; end = l.1 })) }
        ensures doc { self.new.doc ≡ self.old.doc }
        ensures number { self.new.number ≡ (if is_some result then self.old.number + 1 else self.old.number) }
        ensures most { (d : ℕ) → pieces_most self.old.doc < 2 ^ d → visits.new ≤ visits.old + 2 * (d + 2) }
        ensures kept { visits.old ≤ visits.new }
    {
        let _lines = self.parts.line_count();
        let last = self.parts.end(Unit::Utf8).scalars;
        let Some(at) = self.next else {
            return None;
        };
        let start = at.start.scalars;
        match next_mark(&self.parts, self.number, at, visits) {
            None => {
                self.next = None;
                self.number += 1;
                Some((start, last))
            }
            Some(m) => {
                let end = m.at.scalars;
                self.next = Some(line_after(&self.parts, self.number, m, visits));
                self.number += 1;
                Some((start, end))
            }
        }
    }
}

/// The start of a line, and the text of its piece after that.
#[derive(Clone, Copy)]
pub struct NextLine<'a> {
    /// The start of the line, in code points and bytes of UTF-8.
    pub start: Point,
    /// The text of its piece from its start.
    pub rest: &'a str,
}

/// Line `n`, if there is one.
fn first_line<'d>(parts: &Parts<'d, '_>, n: u64, visits: &mut Visits) -> Option<NextLine<'d>>
    ensures next { IsAhead (text_of parts.now.doc) n result }
    ensures most { (d : ℕ) → length parts.now.pieces < 2 ^ d → visits.new ≤ visits.old + 2 * (d + 2) }
    ensures kept { visits.old ≤ visits.new }
{
    if n == 0 {
        let start = Point {
            scalars: 0,
            units: 0,
        };
        return Some(NextLine { start, rest: "" });
    }
    match mark(parts, Unit::Utf8, n - 1, visits) {
        None => None,
        Some(m) => Some(line_after(parts, n - 1, m, visits)),
    }
}

/// The mark at the end of line `n`, if there is one. It is sought in the rest of the piece first.
fn next_mark<'d>(
    parts: &Parts<'d, '_>,
    n: u64,
    at: NextLine<'d>,
    visits: &mut Visits,
) -> Option<LineMark<'d>>
    requires { IsNextLine (text_of parts.now.doc) n at }
    ensures place { MatchOption result (marks false (text_of parts.now.doc) ≤ n) (IsMarkAt Utf8 (text_of parts.now.doc) n) }
    ensures most { (d : ℕ) → length parts.now.pieces < 2 ^ d → visits.new ≤ visits.old + (d + 2) }
    ensures kept { visits.old ≤ visits.new }
{
    let _end = parts.end(Unit::Utf8);
    let (scalars, units) = (at.start.scalars, at.start.units);
    match split_at_first_mark(at.rest) {
        None => mark(parts, Unit::Utf8, n, visits),
        Some((front, rest, count)) => {
            let at = Point {
                scalars: scalars + count as u64,
                units: units + units_in(front, Unit::Utf8),
            };
            Some(LineMark { at, rest })
        }
    }
}

/// The line after mark `n`.
// In the loop over the lines of a page, where its answer would go through memory.
#[inline(always)]
pub(crate) fn line_after<'d>(
    parts: &Parts<'d, '_>,
    n: u64,
    m: LineMark<'d>,
    visits: &mut Visits,
) -> NextLine<'d>
    requires mark { IsMarkAt Utf8 (text_of parts.now.doc) n m }
    ensures next { IsNextLine (text_of parts.now.doc) (n + 1) result }
    ensures most { (d : ℕ) → length parts.now.pieces < 2 ^ d → visits.new ≤ visits.old + (d + 2) }
    ensures kept { visits.old ≤ visits.new }
{
    let start = line_behind(parts, Unit::Utf8, n, &m, visits);
    let rest = rest_behind(m.rest, start.scalars - m.at.scalars);
    NextLine { start, rest }
}

/// The text after the first `n` code points, or nothing.
pub(crate) fn rest_behind(text: &str, n: u64) -> &str
    ensures { IsRestBehind (chars text.now) n (chars result.now) }
{
    match split_at_scalar(text, n as usize) {
        Some((_, rest)) => rest,
        None => "",
    }
}
