//! The treatment of a byte order mark.

/// The treatment of a byte order mark at the start of a document's bytes.
#[derive(Clone, Copy, PartialEq, Eq, Debug)]
pub enum Bom {
    /// A BOM is looked for. Its encoding is effective after it, and it isn't part of the text
    /// (Encoding Standard, "decode").
    Sniff,
    /// A BOM is kept. The declared encoding is effective, and the bytes of a BOM are decoded like
    /// other bytes (Encoding Standard, "UTF-8 decode without BOM", here for every encoding).
    Keep,
}
