//! Rows of a text: what is given, and what has to come of it.

use crate::unplayed::Unplayed;
use crate::{decoding, encoding};
use index_loader::Indexes;
use std::alloc::Global;

/// The kind of the rows in a file.
#[derive(Clone, Copy)]
pub enum RowKind {
    /// Bytes that are decoded.
    Decoding,
    /// Texts that are encoded.
    Encoding,
    /// Texts that are encoded in ISO-2022-JP, from a state.
    FromState,
}

impl RowKind {
    /// Plays what is given, and writes the result in the form of the rows.
    pub fn outcome(
        self,
        alloc: Global,
        indexes: &Indexes,
        given: &str,
    ) -> Result<String, Unplayed> {
        match self {
            RowKind::Decoding => decoding::outcome(alloc, indexes, given),
            RowKind::Encoding => encoding::outcome(alloc, indexes, given),
            RowKind::FromState => encoding::outcome_from(alloc, indexes, given),
        }
    }
}

/// Splits a line `GIVEN -> WANTED`. An empty line and a line that begins with `#` have no row.
pub fn row_of(line: &str) -> Result<Option<(&str, &str)>, Unplayed> {
    if line.is_empty() || line.starts_with('#') {
        return Ok(None);
    }
    let row = line.split_once(" -> ").ok_or(Unplayed::Malformed)?;
    Ok(Some(row))
}
