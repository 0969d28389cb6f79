//! Items: what a decoder gives.
use enc_names::Scalar;

/// The result of one turn of a decoder: one or more code points, or an error. (Encoding Standard,
/// "Encoders and decoders".) An error means U+FFFD in the decoded text.
#[derive(Clone, Copy, PartialEq, Eq, Debug)]
pub enum Item {
    /// A code point.
    One(Scalar),
    /// Two code points in order, as four pointers of Big5 give them.
    Two(Scalar, Scalar),
    /// An error.
    Error,
}

/// An item, and the number of bytes read so far after its end.
#[derive(Clone, Copy, PartialEq, Eq, Debug)]
pub struct Ended {
    /// The item.
    pub item: Item,
    /// The number of bytes after its end.
    pub back: u8,
}
