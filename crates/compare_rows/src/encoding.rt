//! Rows of texts that are encoded: `ENCODING; MODE; TEXT -> BYTES`.
//!
//! In ISO-2022-JP they begin in a state: `STATE; MODE; END; TEXT -> BYTES; STATE`. END says whether
//! the text ends there. A fault replaces the bytes, with what it names.

use crate::fields;
use crate::unplayed::Unplayed;
use enc_names::Encoding;
use encoders::{EncodeFault, EncodeMode, Unencodable, encode};
use index_loader::Indexes;
use iso2022jp::{FromFault, OutputState, encode_from};
use std::alloc::{AllocError, Global};

/// Encodes the text of a row, and writes the result.
pub fn outcome(alloc: Global, indexes: &Indexes, given: &str) -> Result<String, Unplayed> {
    let (name, others) = given.split_once("; ").ok_or(Unplayed::Malformed)?;
    let (mode, text) = others.split_once("; ").ok_or(Unplayed::Malformed)?;
    let encoding = fields::encoding(name)?;
    let mode = if fields::is_second(mode, "fatal", "html")? {
        EncodeMode::Html
    } else {
        EncodeMode::Fatal
    };
    let text = fields::text(alloc, text)?;
    Ok(encoded(alloc, indexes, encoding, mode, text.as_str())?)
}

/// Encodes a text, and writes the result.
fn encoded(
    alloc: Global,
    indexes: &Indexes,
    encoding: Encoding,
    mode: EncodeMode,
    text: &str,
) -> Result<String, AllocError> {
    match encode(alloc, encoding, indexes, mode, text) {
        Ok(bytes) => fields::hex_of(alloc, &bytes),
        Err(EncodeFault::NoIndex) => String::from_str(alloc, "NoIndex"),
        Err(EncodeFault::NoEncoder) => String::from_str(alloc, "NoEncoder"),
        Err(EncodeFault::Unencodable(it)) => unencodable(alloc, it),
        Err(EncodeFault::OutOfMemory) => Err(AllocError),
    }
}

/// Encodes the text of a row to ISO-2022-JP, and returns the last state. It writes the bytes or the
/// fault too.
pub fn outcome_from(alloc: Global, indexes: &Indexes, given: &str) -> Result<String, Unplayed> {
    let (state, others) = given.split_once("; ").ok_or(Unplayed::Malformed)?;
    let (mode, others) = others.split_once("; ").ok_or(Unplayed::Malformed)?;
    let (end, text) = others.split_once("; ").ok_or(Unplayed::Malformed)?;
    let state = fields::output_state(state)?;
    let html = fields::is_second(mode, "fatal", "html")?;
    let end = fields::is_second(end, "goes on", "ends")?;
    let text = fields::text(alloc, text)?;
    Ok(encoded_from(alloc, indexes, state, text.as_str(), html, end)?)
}

/// Encodes a text to ISO-2022-JP from a state, and returns the last state. It writes the bytes or
/// the fault too.
fn encoded_from(
    alloc: Global,
    indexes: &Indexes,
    state: OutputState,
    text: &str,
    html: bool,
    end: bool,
) -> Result<String, AllocError> {
    if !indexes.has(Encoding::Iso2022Jp) {
        return String::from_str(alloc, "NoIndex");
    }
    match encode_from(alloc, indexes, state, text, html, end) {
        Ok((bytes, after)) => {
            let bytes = fields::hex_of(alloc, &bytes)?;
            format!(in alloc; "{bytes}; {after:?}")
        }
        Err(FromFault::Unencodable(it)) => unencodable(alloc, it),
        Err(FromFault::OutOfMemory) => Err(AllocError),
    }
}

/// The code point that has no bytes, and its place among the code points.
fn unencodable(alloc: Global, it: Unencodable) -> Result<String, AllocError> {
    format!(in alloc;
        "Unencodable {} U+{:04X}",
        it.index,
        u32::from(it.code_point)
    )
}
