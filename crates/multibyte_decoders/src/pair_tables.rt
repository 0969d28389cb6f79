//! The rows and the columns by which pairs are looked up in bulk: a pointer is their sum. They are
//! read from tables, since tests of ranges and products take several instructions more for each pair.
//! Each is made by its rule: from the ranges of the bytes that have one.

/// The number of a byte without a row or a column, greater than any pointer.
pub(crate) const NONE: u16 = 0x8000;

/// A table of numbers for all bytes, from a step and ranges. A byte in a range has the step times its
/// distance from the range's base. Every other byte has `NONE`.
macro_rules! numbers {
    (@one $byte:tt [$step:literal, $($first:literal to $last:literal above $base:literal),*]) => {
        (0x8000
            $(+ ($first <= $byte && $byte <= $last) as i64 * (($byte - $base) * $step - 0x8000))*)
            as u16
    };
    (@rows $rule:tt $($row:literal)*) => {
        [$(
            numbers!(@one $row $rule), numbers!(@one ($row + 1) $rule),
            numbers!(@one ($row + 2) $rule), numbers!(@one ($row + 3) $rule),
            numbers!(@one ($row + 4) $rule), numbers!(@one ($row + 5) $rule),
            numbers!(@one ($row + 6) $rule), numbers!(@one ($row + 7) $rule),
        )*]
    };
    ($($rule:tt)*) => {
        numbers!(
            @rows [$($rule)*]
            0x00 0x08 0x10 0x18 0x20 0x28 0x30 0x38 0x40 0x48 0x50 0x58 0x60 0x68 0x70 0x78
            0x80 0x88 0x90 0x98 0xA0 0xA8 0xB0 0xB8 0xC0 0xC8 0xD0 0xD8 0xE0 0xE8 0xF0 0xF8
        )
    };
}

pub(crate) use numbers;
