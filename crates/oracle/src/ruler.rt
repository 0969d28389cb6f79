//! A text measured in one unit.

use position_map::{PosFault, Unit};
use std::alloc::Global;

/// The units that the code points of a text take, from its start.
#[derive(Drop)]
pub struct Ruler {
    /// The number of units before each code point, and last that of all.
    before: Vec<usize>,
    /// The number of code points that take each number of units; `None` inside a code point.
    taken_by: Vec<Option<usize>>,
}

/// The number of units that a code point takes.
fn width(c: char, unit: Unit) -> usize {
    match unit {
        Unit::Utf8 => c.len_utf8(),
        Unit::Utf16 => c.len_utf16(),
        Unit::Utf32 => 1,
    }
}

impl Ruler {
    /// Measures the text in this unit. `None` if memory is refused.
    pub fn of(alloc: Global, text: &[char], unit: Unit) -> Option<Ruler> {
        let mut ruler = Ruler {
            before: Vec::new(alloc),
            taken_by: Vec::new(alloc),
        };
        for (n, c) in text.iter().enumerate() {
            ruler.before.push(ruler.taken_by.len()).ok()?;
            ruler.taken_by.push(Some(n)).ok()?;
            for _ in 1..width(*c, unit) {
                ruler.taken_by.push(None).ok()?;
            }
        }
        ruler.before.push(ruler.taken_by.len()).ok()?;
        ruler.taken_by.push(Some(text.len())).ok()?;
        Some(ruler)
    }

    /// The number of units before code point `n`.
    pub fn before(&self, n: usize) -> usize {
        self.before.get(n).copied().unwrap_or(0)
    }

    /// The number of code points that take `units` units.
    pub fn taken_by(&self, units: u64) -> Result<usize, PosFault> {
        match self.taken_by.get(units as usize) {
            Some(Some(n)) => Ok(*n),
            Some(None) => Err(PosFault::SplitsCharacter),
            None => Err(PosFault::OutOfRange),
        }
    }
}
