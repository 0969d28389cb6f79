//! Positions and offsets, each from the other.
ghost use Rattle.std.specs.Prelude.{◌≡◌, ℕ, ◌+◌, ◌*◌, ◌^◌, ◌<◌, ◌≤◌, Ok, length, ◌-◌, None, MatchResult};
ghost use Rattle.std.specs.{Option.ok_or, Option.option_map, Str.chars};
ghost use Rattle.lane_ascii.specs.Marks.{marks};
ghost use Rattle.piece_rope.specs.Document.{text_of};
ghost use Rattle.position_map.specs.{Fronts.IsCutAt, Fronts.IsFrontOf, Fronts.IsOnLine, Marked.IsCutAtMark, Marked.IsLineStart, Positions.along};
ghost use Rattle.position_map.specs.{Positions.converted, Positions.offset_of, Positions.position_of, Whole.pieces_most, Widths.width};
ghost use Rattle.position_map.specs.declared.fault.PosFault.TheVariants.{SplitsCharacter};

use crate::cuts::{
    Along, TextCut, along_text, axis_of, locate, parts_cr_lf, split_at_mark, sum_in,
};
use crate::fault::PosFault;
use crate::lines::{line_after, line_end, line_start};
use crate::marks::{last_line, mark_at, mark_cut, start_in};
use crate::parts::Parts;
use crate::position::Position;
use crate::unit::{Point, Unit, units_in};
use lane_utf::count_scalars;
use piece_rope::{Axis, Doc, Sum, Visits, count_marks, split_at_scalar};

/// A place on a line.
#[derive(Clone, Copy)]
pub struct OnLine {
    /// The line's number.
    pub line: u64,
    /// The units of the text before the place.
    pub units: u64,
}

/// The position of an offset in code points (LSP 3.17, "Position") (`position`). Its line is the
/// last one that starts at or before the offset. Its character is the units from there to the
/// offset or to the line's end, whichever comes first. Refused with `OutOfRange` past the text. The
/// search makes a bounded number of visits (`most`), and their count never falls (`kept`).
pub fn to_position(
    doc: &Doc<'_>,
    offset: u64,
    unit: Unit,
    visits: &mut Visits,
) -> Result<Position, PosFault>
    ensures position { result ≡ position_of (text_of doc.now) unit offset }
    ensures most { (d : ℕ) → pieces_most doc.now < 2 ^ d → visits.new ≤ visits.old + (4 * d + 8) }
    ensures kept { visits.old ≤ visits.new }
{
    let parts = Parts::of(doc);
    if offset > parts.end(unit).scalars {
        return Err(PosFault::OutOfRange);
    }
    Ok(position_at(&parts, unit, offset, visits))
}

/// The position of an offset within the text. Mostly its line begins in its piece.
fn position_at(parts: &Parts<'_, '_>, unit: Unit, offset: u64, visits: &mut Visits) -> Position
    requires { offset ≤ length (text_of parts.now.doc) }
    ensures position { Ok result ≡ position_of (text_of parts.now.doc) unit offset }
    ensures most { (d : ℕ) → length parts.now.pieces < 2 ^ d → visits.new ≤ visits.old + 3 * (d + 2) }
    ensures kept { visits.old ≤ visits.new }
{
    let _end = parts.end(unit);
    let cut = cut_at(parts, offset, visits);
    let marks = count_marks(cut.front, cut.before.cr_last);
    if marks > 0 && !parts_cr_lf(cut.front, cut.before.cr_last, cut.rest) {
        return match last_line(cut.front) {
            Some(line) => Position {
                line: cut.before.marks as u64 + marks,
                character: units_in(line, unit),
            },
            None => unreachable!(),
        };
    }
    let place = place_of(parts, unit, offset, cut, marks);
    position_on(parts, unit, offset, place, visits)
}

/// The piece in which an offset is, cut there.
fn cut_at<'d>(parts: &Parts<'d, '_>, offset: u64, visits: &mut Visits) -> TextCut<'d>
    requires { offset ≤ length (text_of parts.now.doc) }
    ensures cut { IsCutAt (text_of parts.now.doc) offset result }
    ensures most { (d : ℕ) → length parts.now.pieces < 2 ^ d → visits.new ≤ visits.old + (d + 2) }
    ensures kept { visits.old ≤ visits.new }
{
    let (before, here) = locate(parts, Axis::Scalar, offset, visits);
    let scalars = offset - before.scalars as u64;
    match split_at_scalar(here, scalars as usize) {
        Some((front, rest)) => TextCut {
            before,
            front,
            scalars,
            rest,
        },
        None => unreachable!(),
    }
}

/// The line of an offset, and the units before the offset or the line's end. Whichever comes first
/// counts. They are found by the cut there and the number of marks in its front part. Only an offset
/// between CR and LF is past its line's end.
fn place_of(parts: &Parts<'_, '_>, unit: Unit, offset: u64, cut: TextCut<'_>, count: u64) -> OnLine
    requires cut { IsCutAt (text_of parts.now.doc) offset cut }
    requires counted { count ≡ marks cut.before.cr_last (chars cut.front.now) }
    ensures { IsOnLine unit (text_of parts.now.doc) offset result }
{
    let _end = parts.end(unit);
    let line = cut.before.marks as u64 + count;
    let units = sum_in(cut.before, unit) + units_in(cut.front, unit);
    if parts_cr_lf(cut.front, cut.before.cr_last, cut.rest) {
        OnLine {
            line: line - 1,
            units: units - 1,
        }
    } else {
        OnLine { line, units }
    }
}

/// The position of a place, whose line's start is sought.
fn position_on(
    parts: &Parts<'_, '_>,
    unit: Unit,
    offset: u64,
    place: OnLine,
    visits: &mut Visits,
) -> Position
    requires within { offset ≤ length (text_of parts.now.doc) }
    requires place { IsOnLine unit (text_of parts.now.doc) offset place }
    ensures position { Ok result ≡ position_of (text_of parts.now.doc) unit offset }
    ensures most { (d : ℕ) → length parts.now.pieces < 2 ^ d → visits.new ≤ visits.old + 2 * (d + 2) }
    ensures kept { visits.old ≤ visits.new }
{
    match line_start(parts, unit, place.line, visits) {
        Some(start) => Position {
            line: place.line,
            character: place.units - start.units,
        },
        None => unreachable!(),
    }
}

/// The offset of a position, in code points from the text's start (`offset`). The position is that
/// of LSP 3.17, "Position". A line past the last one means the text's end, a character past the
/// line's length the line's end. Refused with `SplitsCharacter` if the character is inside a code
/// point. The search makes a bounded number of visits (`most`), and their count never falls
/// (`kept`).
pub fn to_offset(
    doc: &Doc<'_>,
    position: Position,
    unit: Unit,
    visits: &mut Visits,
) -> Result<u64, PosFault>
    ensures offset { result ≡ offset_of (text_of doc.now) unit position }
    ensures most { (d : ℕ) → pieces_most doc.now < 2 ^ d → visits.new ≤ visits.old + (4 * d + 8) }
    ensures kept { visits.old ≤ visits.new }
{
    let parts = Parts::of(doc);
    offset_at(&parts, unit, position, visits)
}

/// Converts a number of units of `from` to units of `to` (`value`). Both count the same code
/// points; an offset in code points is one in UTF-32. Refused with `OutOfRange` if the text takes
/// fewer than `value` units, and with `SplitsCharacter` if the last unit is inside a code point.
/// The search makes a bounded number of visits (`most`), and their count never falls (`kept`).
pub fn convert(
    doc: &Doc<'_>,
    value: u64,
    from: Unit,
    to: Unit,
    visits: &mut Visits,
) -> Result<u64, PosFault>
    ensures value { result ≡ converted (text_of doc.now) from to value }
    ensures most { (d : ℕ) → pieces_most doc.now < 2 ^ d → visits.new ≤ visits.old + (4 * d + 8) }
    ensures kept { visits.old ≤ visits.new }
{
    let parts = Parts::of(doc);
    let _end = parts.end(to);
    if value > parts.end(from).units {
        return Err(PosFault::OutOfRange);
    }
    match front_at(&parts, from, value, visits) {
        Ok((before, front)) => Ok(sum_in(before, to) + units_in(front, to)),
        Err(fault) => Err(fault),
    }
}

/// The offset of a position.
pub(crate) fn offset_at(
    parts: &Parts<'_, '_>,
    unit: Unit,
    position: Position,
    visits: &mut Visits,
) -> Result<u64, PosFault>
    ensures offset { result ≡ offset_of (text_of parts.now.doc) unit position }
    ensures most { (d : ℕ) → length parts.now.pieces < 2 ^ d → visits.new ≤ visits.old + 4 * (d + 2) }
    ensures kept { visits.old ≤ visits.new }
{
    if position.line == 0 {
        let start = Point {
            scalars: 0,
            units: 0,
        };
        return offset_from(parts, unit, position, start, visits);
    }
    match mark_cut(parts, position.line - 1, visits) {
        None => Ok(parts.end(unit).scalars),
        Some(cut) => offset_behind(parts, unit, position, cut, visits),
    }
}

/// The offset of a position on the line after a mark. The line mostly ends in the mark's piece.
fn offset_behind(
    parts: &Parts<'_, '_>,
    unit: Unit,
    position: Position,
    cut: TextCut<'_>,
    visits: &mut Visits,
) -> Result<u64, PosFault>
    requires some { 0 < position.line }
    requires cut { IsCutAtMark (text_of parts.now.doc) (position.line - 1) cut }
    ensures offset { result ≡ offset_of (text_of parts.now.doc) unit position }
    ensures most { (d : ℕ) → length parts.now.pieces < 2 ^ d → visits.new ≤ visits.old + 3 * (d + 2) }
    ensures kept { visits.old ≤ visits.new }
{
    let _end = parts.end(unit);
    let n = position.line - 1;
    let m = mark_at(parts, Unit::Utf8, n, cut);
    let next = line_after(parts, n, m, visits);
    if position.character == 0 {
        return Ok(next.start.scalars);
    }
    match split_at_mark(next.rest, false, 0) {
        Some((line, _, _)) => offset_in(next.start.scalars, line, unit, position.character),
        None => {
            let start = start_in(parts, unit, n, cut, next.start);
            offset_from(parts, unit, position, start, visits)
        }
    }
}

/// The offset of a character on a line that is at hand. `start` code points precede the line.
fn offset_in(start: u64, line: &str, unit: Unit, character: u64) -> Result<u64, PosFault>
    requires { start + length (chars line.now) < 2 ^ 64 }
    ensures { result ≡ ok_or (option_map (λ k. start + k) (along unit (chars line.now) character)) SplitsCharacter }
{
    let before = match along_text(line, unit, character as usize) {
        Along::At(front) => front,
        Along::Inside => return Err(PosFault::SplitsCharacter),
        Along::Past => line,
    };
    Ok(start + count_scalars(before) as u64)
}

/// The offset of a position on a line that starts at a point.
fn offset_from(
    parts: &Parts<'_, '_>,
    unit: Unit,
    position: Position,
    start: Point,
    visits: &mut Visits,
) -> Result<u64, PosFault>
    requires { IsLineStart unit (text_of parts.now.doc) position.line start }
    ensures offset { result ≡ offset_of (text_of parts.now.doc) unit position }
    ensures most { (d : ℕ) → length parts.now.pieces < 2 ^ d → visits.new ≤ visits.old + 2 * (d + 2) }
    ensures kept { visits.old ≤ visits.new }
{
    let end = line_end(parts, unit, position.line, visits);
    if position.character < end.units - start.units {
        scalar_at(parts, unit, start.units + position.character, visits)
    } else {
        Ok(end.scalars)
    }
}

/// The number of code points that take `n` units.
fn scalar_at(
    parts: &Parts<'_, '_>,
    unit: Unit,
    n: u64,
    visits: &mut Visits,
) -> Result<u64, PosFault>
    requires { n ≤ width unit (text_of parts.now.doc) }
    ensures scalar { result ≡ ok_or (along unit (text_of parts.now.doc) n) SplitsCharacter }
    ensures most { (d : ℕ) → length parts.now.pieces < 2 ^ d → visits.new ≤ visits.old + (d + 2) }
    ensures kept { visits.old ≤ visits.new }
{
    let _end = parts.end(unit);
    match front_at(parts, unit, n, visits) {
        Ok((before, front)) => Ok(before.scalars as u64 + count_scalars(front) as u64),
        Err(fault) => Err(fault),
    }
}

/// The code points that take `n` units. They are the numbers of the text before the last piece
/// among them, and that piece's part.
fn front_at<'d>(
    parts: &Parts<'d, '_>,
    unit: Unit,
    n: u64,
    visits: &mut Visits,
) -> Result<(Sum, &'d str), PosFault>
    requires { n ≤ width unit (text_of parts.now.doc) }
    ensures front { MatchResult result (λ r. IsFrontOf unit (text_of parts.now.doc) n r.0 (chars r.1.now))
        (λ e. (along unit (text_of parts.now.doc) n ≡ None) × (e ≡ SplitsCharacter)) }
    ensures most { (d : ℕ) → length parts.now.pieces < 2 ^ d → visits.new ≤ visits.old + (d + 2) }
    ensures kept { visits.old ≤ visits.new }
{
    let (before, here) = locate(parts, axis_of(unit), n, visits);
    match along_text(here, unit, (n - sum_in(before, unit)) as usize) {
        Along::At(front) => Ok((before, front)),
        Along::Inside => Err(PosFault::SplitsCharacter),
        Along::Past => unreachable!(),
    }
}
