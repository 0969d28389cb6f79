//! The positions of errors, each reached from the one before.
ghost use Rattle.std.specs.Prelude.{◌≡◌, ℕ, ◌+◌, ◌*◌, ◌^◌, ◌<◌, ◌≤◌, List, length, Ok, IfSome};
ghost use Rattle.piece_rope.specs.Document.{text_of};
ghost use Rattle.position_map.specs.{Diagnostics.diagnostic_at, Positions.position_of, Reaching.BeginsLine, Reaching.IsErrorIn, Reaching.IsReached};
ghost use Rattle.position_map.specs.{Reaching.IsStretch, Widths.width_of, declared.unit.Unit.Unit as TextUnit};

use crate::cuts::{locate, sum_in};
use crate::diagnostic::{Diagnostic, ErrorAt};
use crate::lines::{line_start, rest_behind};
use crate::marks::last_line;
use crate::parts::Parts;
use crate::position::{Position, Range};
use crate::unit::{Unit, units_in};
use piece_rope::{Axis, Visits, count_marks, split_at_scalar};

/// A place of the text, its line, and the text of its piece from there.
#[derive(Clone, Copy)]
pub struct Reached<'a> {
    /// The code points before it.
    pub scalars: u64,
    /// The units before it.
    pub units: u64,
    /// The number of its line.
    pub line: u64,
    /// The units before that line.
    pub start: u64,
    /// The text of its piece from there.
    pub rest: &'a str,
}

/// A part of the text before a place, and what precedes the part.
#[derive(Clone, Copy)]
pub struct Stretch<'a> {
    /// The line marks before it.
    pub marks: u64,
    /// The units before it.
    pub units: u64,
    /// Whether a CR precedes it.
    pub after_cr: bool,
    /// The part.
    pub part: &'a str,
    /// The text of its piece after it.
    pub rest: &'a str,
}

/// An error as it is shown, and the place after its code point. A place before it may be known.
pub(crate) fn show_next<'d>(
    parts: &Parts<'d, '_>,
    unit: Unit,
    error: ErrorAt,
    at: Reached<'d>,
    visits: &mut Visits,
) -> (Diagnostic, Reached<'d>)
    requires at { IsReached unit (text_of parts.now.doc) at }
    requires error { IsErrorIn (text_of parts.now.doc) error.scalar }
    ensures diagnostic { result.0 ≡ diagnostic_at (text_of parts.now.doc) unit error }
    ensures at { IsReached unit (text_of parts.now.doc) result.1 }
    ensures most { (d : ℕ) → length parts.now.pieces < 2 ^ d → visits.new ≤ visits.old + 3 * (d + 2) }
    ensures kept { visits.old ≤ visits.new }
{
    let first = reach(parts, unit, error.scalar, at, visits);
    let start = position_there(&first);
    let behind = pass_error(parts, unit, first);
    let end = position_there(&behind);
    let range = Range { start, end };
    let place = error.place;
    (Diagnostic { place, range }, behind)
}

/// The place before an error's code point: sought in the rest of the piece first.
fn reach<'d>(
    parts: &Parts<'d, '_>,
    unit: Unit,
    offset: u64,
    at: Reached<'d>,
    visits: &mut Visits,
) -> Reached<'d>
    requires at { IsReached unit (text_of parts.now.doc) at }
    requires error { IsErrorIn (text_of parts.now.doc) offset }
    ensures at { IsReached unit (text_of parts.now.doc) result }
    ensures scalars { result.scalars ≡ offset }
    ensures most { (d : ℕ) → length parts.now.pieces < 2 ^ d → visits.new ≤ visits.old + 3 * (d + 2) }
    ensures kept { visits.old ≤ visits.new }
{
    match stretch_near(at, offset) {
        Some(stretch) => place_behind(parts, unit, offset, stretch, at, visits),
        None => {
            let stretch = stretch_in(parts, unit, offset, visits);
            place_behind(parts, unit, offset, stretch, at, visits)
        }
    }
}

/// The text from a place to another, if its piece's rest contains that.
fn stretch_near<'a>(at: Reached<'a>, offset: u64) -> Option<Stretch<'a>>
    ensures { IfSome result (λ x. (unit : TextUnit) (text : List ℕ) → IsReached unit text at.entry → IsStretch unit text offset x) }
{
    let Some(count) = offset.checked_sub(at.scalars) else {
        return None;
    };
    match split_at_scalar(at.rest, count as usize) {
        Some((part, rest)) => Some(Stretch {
            marks: at.line,
            units: at.units,
            after_cr: false,
            part,
            rest,
        }),
        None => None,
    }
}

/// The text from the start of an offset's piece to the offset.
fn stretch_in<'d>(
    parts: &Parts<'d, '_>,
    unit: Unit,
    offset: u64,
    visits: &mut Visits,
) -> Stretch<'d>
    requires { offset ≤ length (text_of parts.now.doc) }
    ensures stretch { IsStretch unit (text_of parts.now.doc) offset result }
    ensures most { (d : ℕ) → length parts.now.pieces < 2 ^ d → visits.new ≤ visits.old + (d + 2) }
    ensures kept { visits.old ≤ visits.new }
{
    let (before, here) = locate(parts, Axis::Scalar, offset, visits);
    match split_at_scalar(here, (offset - before.scalars as u64) as usize) {
        Some((part, rest)) => Stretch {
            marks: before.marks as u64,
            units: sum_in(before, unit),
            after_cr: before.cr_last,
            part,
            rest,
        },
        None => unreachable!(),
    }
}

/// The place after a part of the text, at an error's code point. Its line begins in that part, or it
/// is the line of a place that is known. Otherwise the line is sought.
fn place_behind<'d>(
    parts: &Parts<'d, '_>,
    unit: Unit,
    offset: u64,
    stretch: Stretch<'d>,
    known: Reached<'d>,
    visits: &mut Visits,
) -> Reached<'d>
    requires stretch { IsStretch unit (text_of parts.now.doc) offset stretch }
    requires known { BeginsLine unit (text_of parts.now.doc) known.line known.start }
    requires error { IsErrorIn (text_of parts.now.doc) offset }
    ensures at { IsReached unit (text_of parts.now.doc) result }
    ensures scalars { result.scalars ≡ offset }
    ensures most { (d : ℕ) → length parts.now.pieces < 2 ^ d → visits.new ≤ visits.old + 2 * (d + 2) }
    ensures kept { visits.old ≤ visits.new }
{
    let _end = parts.end(unit);
    let part = stretch.part;
    let marks = count_marks(part, stretch.after_cr);
    let line = stretch.marks + marks;
    let units = stretch.units + units_in(part, unit);
    let rest = stretch.rest;
    let reached = Reached {
        scalars: offset,
        units,
        line,
        start: known.start,
        rest,
    };
    if marks == 0 && line == known.line {
        return reached;
    }
    if marks == 0 {
        return match line_start(parts, unit, line, visits) {
            Some(start) => begun_at(reached, start.units),
            None => unreachable!(),
        };
    }
    match last_line(part) {
        Some(text) => begun_at(reached, units - units_in(text, unit)),
        None => unreachable!(),
    }
}

/// The same place, with a line that begins after `start` units.
fn begun_at<'a>(at: Reached<'a>, start: u64) -> Reached<'a>
    ensures { result ≡ record at.entry { start = start } }
{
    Reached {
        scalars: at.scalars,
        units: at.units,
        line: at.line,
        start,
        rest: at.rest,
    }
}

/// The place after an error's code point.
fn pass_error<'d>(parts: &Parts<'d, '_>, unit: Unit, at: Reached<'d>) -> Reached<'d>
    requires at { IsReached unit (text_of parts.now.doc) at }
    requires error { IsErrorIn (text_of parts.now.doc) at.scalars }
    ensures at { IsReached unit (text_of parts.now.doc) result }
    ensures scalars { result.scalars ≡ at.entry.scalars + 1 }
{
    let _end = parts.end(unit);
    Reached {
        scalars: at.scalars + 1,
        units: at.units + width_of_error(unit),
        line: at.line,
        start: at.start,
        rest: rest_behind(at.rest, 1),
    }
}

/// The number of units that U+FFFD takes.
fn width_of_error(unit: Unit) -> u64
    ensures { result ≡ width_of unit 0xFFFD }
{
    match unit {
        Unit::Utf8 => 3,
        Unit::Utf16 => 1,
        Unit::Utf32 => 1,
    }
}

/// The position of a place.
fn position_there(at: &Reached<'_>) -> Position
    ensures { (unit : TextUnit) (text : List ℕ) → IsReached unit text at.now → Ok result ≡ position_of text unit at.now.scalars }
{
    Position {
        line: at.line,
        character: at.units.saturating_sub(at.start),
    }
}
