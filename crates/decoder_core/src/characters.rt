//! The characters that are taken in bulk.

/// The characters that a decoder takes in bulk. The state is one in which all ASCII bytes are their
/// own code points, or none is.
#[derive(Clone, Copy, PartialEq, Eq, Debug)]
pub enum Characters {
    /// ASCII alone.
    Ascii,
    /// Characters of one byte.
    Bytes,
    /// Characters of two bytes, and ASCII if its bytes are their own code points.
    Pairs,
}
