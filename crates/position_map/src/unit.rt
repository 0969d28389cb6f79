//! Units in which places of a text are counted, and points of it.
ghost use Rattle.std.specs.Prelude.{◌≡◌};
ghost use Rattle.std.specs.Str.{chars};
ghost use Rattle.position_map.specs.Widths.{width};

use lane_utf::{count_scalars, count_utf16};

/// The unit in which characters are counted (LSP 3.17, "PositionEncodingKind").
#[derive(Clone, Copy, PartialEq, Eq, Debug)]
pub enum Unit {
    /// Bytes of UTF-8.
    Utf8,
    /// Code units of UTF-16.
    Utf16,
    /// Code points.
    Utf32,
}

/// A point of a text, counted from the text's start.
#[derive(Clone, Copy)]
pub struct Point {
    /// The code points before it.
    pub scalars: u64,
    /// The units before it.
    pub units: u64,
}

/// The number of units that a text takes.
pub(crate) fn units_in(text: &str, unit: Unit) -> u64
    ensures { result ≡ width unit (chars text.now) }
{
    match unit {
        Unit::Utf8 => text.len() as u64,
        Unit::Utf16 => count_utf16(text) as u64,
        Unit::Utf32 => count_scalars(text) as u64,
    }
}
