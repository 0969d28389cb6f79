//! ASCII bytes that are their own code points.

/// The ASCII bytes that are their own code points in a decoder's state. They leave the decoder in
/// that state.
#[derive(Clone, Copy, PartialEq, Eq, Debug)]
pub enum AsciiRuns {
    /// None that is known.
    None,
    /// All.
    All,
    /// All but 0x0E, 0x0F and 0x1B, with which ISO 2022 shifts and escapes.
    WithoutEscapes,
}
