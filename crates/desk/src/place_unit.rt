//! The unit of the value of the op `place`.

use position_map::Unit;

/// The unit of an offset.
#[derive(Clone, Copy, PartialEq, Eq, Debug)]
pub enum PlaceUnit {
    /// Bytes of the document.
    Byte,
    /// Units of its text.
    Text(Unit),
}
