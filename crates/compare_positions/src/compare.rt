//! Each call on a document, compared with the plain computation.

use crate::spots::Spots;
use crate::tally::CallTally;
use enc_names::Setting;
use oracle::{PlacedText, WalkedText};
use piece_rope::Doc;
use position_map::{
    Diagnostic, PosFault, Position, Unit, byte_to_scalar, convert, first_error_from, line,
    line_count, list_diagnostics, scalar_to_place, to_offset, to_position,
};
use rand::rngs::SmallRng;
use std::alloc::Global;
use sum_tree::visits;

/// The units.
const UNITS: [Unit; 3] = [Unit::Utf8, Unit::Utf16, Unit::Utf32];

/// The number of errors that are asked for at once.
const PAGE: usize = 20;

/// The most nodes visited for each error by the call for errors with positions. It holds in a
/// document of any length.
const MOST_FOR_ERROR: u64 = 90;

/// A document, what it has to answer, and what was compared so far.
#[derive(Drop)]
struct Comparison<'a> {
    alloc: Global,
    doc: &'a Doc<'a>,
    plain: &'a WalkedText,
    tally: &'a mut CallTally,
}

/// The fault if nothing was found.
fn none_found(found: bool) -> Option<PosFault> {
    if found {
        None
    } else {
        Some(PosFault::OutOfRange)
    }
}

impl Comparison<'_> {
    /// Each call at all these numbers, and the number of lines.
    fn at_all(&mut self, spots: &Spots) {
        self.line_count();
        for n in &spots.numbers {
            self.at(*n);
        }
        for n in &spots.errors {
            for unit in &UNITS {
                self.errors(*n, *unit);
            }
        }
    }

    /// The number of lines.
    fn line_count(&mut self) {
        let same = line_count(self.doc) == self.plain.line_count();
        self.tally.count(same, None, 0);
    }

    /// Compares each call at a number, used as line, byte, code point and unit.
    fn at(&mut self, n: u64) {
        self.line(n);
        self.errors_before(n);
        self.place(n);
        for unit in &UNITS {
            self.position(n, *unit);
            for to in &UNITS {
                self.conversion(n, *unit, *to);
            }
        }
    }

    /// The line of this number.
    fn line(&mut self, n: u64) {
        let mut visits = visits();
        let found = line(self.doc, n, &mut visits);
        let same = found == self.plain.line(n);
        let fault = none_found(found.is_some());
        self.tally.count(same, fault, visits.visited());
    }

    /// Compares how many errors are before the line of this number.
    fn errors_before(&mut self, n: u64) {
        let mut visits = visits();
        let found = first_error_from(self.doc, n, &mut visits);
        let same = self.plain.are_errors_before(found, n);
        self.tally.count(same, None, visits.visited());
    }

    /// Compares the errors that begin at this number. Their visits are not among those that all
    /// calls are held to.
    fn errors(&mut self, n: u64, unit: Unit) {
        let mut visits = visits();
        let found = list_diagnostics(self.alloc, self.doc, n, PAGE as u64, unit, &mut visits);
        let Ok(found) = found else {
            self.tally.count(false, None, 0);
            return;
        };
        let same = self.are_errors(&found, n, unit);
        let few = visits.visited() <= MOST_FOR_ERROR.saturating_mul(found.len() as u64);
        let first = found.first().copied();
        let fault = none_found(first.is_some());
        self.tally.count(same && few, fault, 0);
        self.tally.pass_error(first);
    }

    /// Whether these are the errors from this number. They must be as many as were asked for, or
    /// all.
    fn are_errors(&self, found: &[Diagnostic], n: u64, unit: Unit) -> bool {
        let mut number = n;
        for diagnostic in found {
            if self.plain.nth_diagnostic(number, unit) != Some(*diagnostic) {
                return false;
            }
            number = number.saturating_add(1);
        }
        found.len() == PAGE || self.plain.nth_diagnostic(number, unit).is_none()
    }

    /// Code points by bytes, and bytes by code points.
    fn place(&mut self, n: u64) {
        let mut seen = visits();
        let found = byte_to_scalar(self.doc, n, &mut seen);
        let same = found == self.plain.byte_to_scalar(n);
        self.tally.count(same, found.err(), seen.visited());
        let mut seen = visits();
        let found = scalar_to_place(self.doc, n, &mut seen);
        let same = found == self.plain.scalar_to_place(n);
        let fault = none_found(found.is_some());
        self.tally.count(same, fault, seen.visited());
    }

    /// The position of an offset, and the offsets of that position and of its neighbours.
    fn position(&mut self, offset: u64, unit: Unit) {
        let mut visits = visits();
        let found = to_position(self.doc, offset, unit, &mut visits);
        let same = found == self.plain.to_position(offset, unit);
        self.tally.count(same, found.err(), visits.visited());
        let Ok(Position { line, character }) = found else {
            return;
        };
        for more in 0..3 {
            let character = character.saturating_add(more);
            self.offset(Position { line, character }, unit);
        }
        self.offset(
            Position {
                line: offset,
                character,
            },
            unit,
        );
    }

    /// The offset of a position.
    fn offset(&mut self, position: Position, unit: Unit) {
        let mut visits = visits();
        let found = to_offset(self.doc, position, unit, &mut visits);
        let same = found == self.plain.to_offset(position, unit);
        self.tally.count(same, found.err(), visits.visited());
    }

    /// Units in another unit.
    fn conversion(&mut self, value: u64, from: Unit, to: Unit) {
        let mut visits = visits();
        let found = convert(self.doc, value, from, to, &mut visits);
        let same = found == self.plain.convert(value, from, to);
        self.tally.count(same, found.err(), visits.visited());
    }
}

/// Compares each call on a document of these bytes under a setting. The numbers are near the borders of its
/// pieces, or drawn. `None` if memory is refused.
pub fn compare(
    alloc: Global,
    rng: &mut SmallRng,
    doc: &Doc<'_>,
    setting: Setting,
    bytes: &[u8],
    tally: &mut CallTally,
) -> Option<()> {
    let text = PlacedText::of(alloc, doc.indexes(), setting, bytes)?;
    let plain = WalkedText::of(alloc, text, bytes.len())?;
    let spots = Spots::of(alloc, rng, doc)?;
    tally.pass(spots.borders, spots.cut);
    let mut comparison = Comparison {
        alloc,
        doc,
        plain: &plain,
        tally,
    };
    comparison.at_all(&spots);
    Some(())
}
