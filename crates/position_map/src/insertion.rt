//! What replaces a range of a text.

/// What replaces a range of a text.
#[derive(Clone, Copy)]
pub enum Insertion<'a> {
    /// A text, by its bytes in the effective encoding.
    Text(&'a str),
    /// Bytes, as they are.
    Bytes(&'a [u8]),
}
