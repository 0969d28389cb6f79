//! The families of encodings that share a decoder.

use crate::kind::PairEncoding;

/// A family of encodings that share a decoder (Encoding Standard, "Names and labels"). It has what
/// the decoder needs of the index files: the indexes that `Indexes::of` borrows, or in contracts
/// the kinds of the files.
#[derive(Drop)]
pub enum Family<I: Drop> {
    /// UTF-8.
    Utf8,
    /// The 28 single-byte encodings, each by an index of its own.
    SingleByte(I),
    /// gb18030 and GBK.
    Gb18030 {
        /// The two-byte index.
        index: I,
        /// The ranges, for four bytes.
        ranges: I,
    },
    /// An encoding of single bytes and pairs, by its index.
    Pair(PairEncoding, I),
    /// EUC-JP.
    EucJp {
        /// The index of two bytes.
        jis0208: I,
        /// The index of three bytes, which its decoder alone looks up.
        jis0212: I,
    },
    /// ISO-2022-JP.
    Iso2022Jp {
        /// The index of two bytes.
        jis0208: I,
        /// Half-width katakana, which its encoder alone looks up: the encoding is served with both
        /// files or not at all.
        katakana: I,
    },
    /// replacement.
    Replacement,
    /// UTF-16BE.
    Utf16Be,
    /// UTF-16LE.
    Utf16Le,
    /// x-user-defined.
    XUserDefined,
}
