//! What a stream has, as a check of it says.

use enc_names::{Encoding, Place};

/// What a stream has: its lengths, its line ends and its errors.
#[derive(Drop)]
pub struct Row {
    /// The effective encoding.
    pub encoding: Encoding,
    /// The number of bytes of the byte order mark. It is 0 if there is none or marks are kept.
    pub bom: u64,
    /// The number of all bytes.
    pub bytes: u64,
    /// The number of code points of the text, in which each error is one U+FFFD.
    pub characters: u64,
    /// The number of LFs that don't follow a CR.
    pub lf: u64,
    /// The number of CRs that an LF follows.
    pub crlf: u64,
    /// The number of CRs that no LF follows.
    pub cr: u64,
    /// The number of lines (LSP 3.17, "Text Documents": CR LF, CR and LF end a line).
    pub lines: u64,
    /// The number of errors.
    pub errors: u64,
    /// The first errors, as many as were asked for, in order.
    pub places: Vec<Found>,
}

/// Where an error is.
#[derive(Clone, Copy, PartialEq, Eq, Debug)]
pub struct Found {
    /// Its bytes, counted from 0.
    pub place: Place,
    /// Its line, counted from 0.
    pub line: u64,
    /// The code points before it on its line.
    pub character: u64,
}
