//! Lines, positions, places and errors, computed plainly over a whole text.

use crate::ruler::Ruler;
use crate::text::PlacedText;
use enc_names::Place;
use position_map::{Diagnostic, PosFault, Position, Range, Unit};
use std::alloc::Global;

/// The start and the end of a line, in code points.
#[derive(Clone, Copy)]
struct LineOfText {
    start: usize,
    end: usize,
}

/// A text with the answer to every query, found by walks over all of it.
#[derive(Drop)]
pub struct WalkedText {
    text: PlacedText,
    lines: Vec<LineOfText>,
    /// The line of each offset.
    line_at: Vec<usize>,
    /// The number of code points that end at each byte or before it.
    until: Vec<u64>,
    utf8: Ruler,
    utf16: Ruler,
    utf32: Ruler,
}

/// The lines, cut at CR LF, CR and LF.
fn lines_of(alloc: Global, text: &[char]) -> Option<Vec<LineOfText>> {
    let mut lines = Vec::new(alloc);
    let mut start = 0;
    let mut last = ' ';
    for (n, c) in text.iter().enumerate() {
        if *c == '\n' && last == '\r' {
            // The line ended at the CR.
            start = n + 1;
        } else if *c == '\n' || *c == '\r' {
            lines.push(LineOfText { start, end: n }).ok()?;
            start = n + 1;
        }
        last = *c;
    }
    let end = text.len();
    lines.push(LineOfText { start, end }).ok()?;
    Some(lines)
}

/// The number of each offset's line, the last that starts there or before. The text has `count`
/// code points.
fn lines_at(alloc: Global, lines: &[LineOfText], count: usize) -> Option<Vec<usize>> {
    let mut line_at = Vec::new(alloc);
    let mut line: usize = 0;
    for offset in 0..=count {
        let next = line.saturating_add(1);
        if lines.get(next).is_some_and(|l| l.start == offset) {
            line = next;
        }
        line_at.push(line).ok()?;
    }
    Some(line_at)
}

/// The number of code points that end at or before each byte. It covers `bytes` bytes and the end.
fn untils(alloc: Global, places: &[Place], bytes: usize) -> Option<Vec<u64>> {
    let mut ends: Vec<u64> = vec![in alloc; 0; bytes.checked_add(1)?].ok()?;
    for place in places {
        if let Some(end) = ends.get_mut(place.to as usize) {
            *end = end.saturating_add(1);
        }
    }
    let mut count: u64 = 0;
    for end in &mut ends {
        count = count.saturating_add(*end);
        *end = count;
    }
    Some(ends)
}

impl WalkedText {
    /// Computes everything about the text of `bytes` bytes. `None` if memory is refused.
    pub fn of(alloc: Global, text: PlacedText, bytes: usize) -> Option<WalkedText> {
        let lines = lines_of(alloc, &text.chars)?;
        Some(WalkedText {
            line_at: lines_at(alloc, &lines, text.chars.len())?,
            until: untils(alloc, &text.places, bytes)?,
            utf8: Ruler::of(alloc, &text.chars, Unit::Utf8)?,
            utf16: Ruler::of(alloc, &text.chars, Unit::Utf16)?,
            utf32: Ruler::of(alloc, &text.chars, Unit::Utf32)?,
            text,
            lines,
        })
    }

    /// The text in a unit.
    fn ruler(&self, unit: Unit) -> &Ruler {
        match unit {
            Unit::Utf8 => &self.utf8,
            Unit::Utf16 => &self.utf16,
            Unit::Utf32 => &self.utf32,
        }
    }

    /// The number of lines.
    pub fn line_count(&self) -> u64 {
        self.lines.len() as u64
    }

    /// The start and the end of line `n`.
    pub fn line(&self, n: u64) -> Option<(u64, u64)> {
        let line = self.lines.get(n as usize)?;
        Some((line.start as u64, line.end as u64))
    }

    /// The position of an offset.
    pub fn to_position(&self, offset: u64, unit: Unit) -> Result<Position, PosFault> {
        let offset = offset as usize;
        let n = self.line_at.get(offset).ok_or(PosFault::OutOfRange)?;
        let line = self.lines.get(*n).ok_or(PosFault::OutOfRange)?;
        let ruler = self.ruler(unit);
        let to = ruler.before(offset.min(line.end));
        Ok(Position {
            line: *n as u64,
            character: to.saturating_sub(ruler.before(line.start)) as u64,
        })
    }

    /// The offset of a position.
    pub fn to_offset(&self, position: Position, unit: Unit) -> Result<u64, PosFault> {
        let Some(line) = self.lines.get(position.line as usize) else {
            return Ok(self.text.places.len() as u64);
        };
        let ruler = self.ruler(unit);
        let at = position
            .character
            .saturating_add(ruler.before(line.start) as u64);
        if at >= ruler.before(line.end) as u64 {
            return Ok(line.end as u64);
        }
        Ok(ruler.taken_by(at)? as u64)
    }

    /// Units of `from` in units of `to`.
    pub fn convert(&self, value: u64, from: Unit, to: Unit) -> Result<u64, PosFault> {
        let n = self.ruler(from).taken_by(value)?;
        Ok(self.ruler(to).before(n) as u64)
    }

    /// The number of code points before a byte.
    pub fn byte_to_scalar(&self, at: u64) -> Result<u64, PosFault> {
        self.until
            .get(at as usize)
            .copied()
            .ok_or(PosFault::OutOfRange)
    }

    /// The place of code point `n`.
    pub fn scalar_to_place(&self, n: u64) -> Option<Place> {
        self.text.places.get(n as usize).copied()
    }

    /// Error `n`, with the position of its code point and the position after it.
    pub fn nth_diagnostic(&self, n: u64, unit: Unit) -> Option<Diagnostic> {
        let scalar = *self.text.errors.get(n as usize)? as u64;
        let place = self.scalar_to_place(scalar)?;
        let start = self.to_position(scalar, unit).ok()?;
        let end = self.to_position(scalar.saturating_add(1), unit).ok()?;
        let range = Range { start, end };
        Some(Diagnostic { place, range })
    }

    /// Whether error `n` is on a line before this one. There must be such an error.
    fn is_error_before(&self, n: usize, line: u64) -> Option<bool> {
        let scalar = *self.text.errors.get(n)?;
        Some((*self.line_at.get(scalar)? as u64) < line)
    }

    /// Whether exactly `count` errors are on lines before this one.
    pub fn are_errors_before(&self, count: u64, line: u64) -> bool {
        let count = count as usize;
        let last = match count.checked_sub(1) {
            None => true,
            Some(last) => self.is_error_before(last, line) == Some(true),
        };
        last && self.is_error_before(count, line) != Some(true)
    }
}
