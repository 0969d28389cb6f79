//! The bytes that a decoder takes in bulk.

/// The length in bytes of each item that was taken in bulk.
#[derive(Clone, Copy, PartialEq, Eq, Debug)]
pub enum Stride {
    /// The length of its code point's UTF-8 form.
    Utf8,
    /// Twice as long as the number of units that its code point has in UTF-16.
    Utf16,
    /// One byte where its code point is ASCII, and two where it isn't.
    Pairs,
    /// One byte.
    Bytes,
}

/// Bytes that a decoder took in bulk. Each of their items is one code point, and there are no gaps
/// between them. After each item the decoder is in the state in which it was before.
#[derive(Clone, Copy, PartialEq, Eq, Debug)]
pub struct Bulk {
    /// The number of bytes taken, starting with the first.
    pub taken: usize,
    /// The number of bytes of UTF-8 written for them.
    pub written: usize,
    /// The length of each item.
    pub stride: Stride,
}

/// No byte was taken.
pub const NO_BULK: Bulk = Bulk {
    taken: 0,
    written: 0,
    stride: Stride::Utf8,
};
