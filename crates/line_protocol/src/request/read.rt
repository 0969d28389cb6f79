//! The parsing of bytes to a JSON value.
ghost use Rattle.line_protocol.specs.Request.{IsJsonOfLine};

use crate::request::refusal::Refusal;
use enc_names::parse_json;
use serde_json::Value;
use std::alloc::Global;

/// Parses the JSON value of a line, which is given without its line feed.
///
/// # Errors
///
/// `BadJson` for bytes that aren't UTF-8 or aren't a JSON text, `OutOfMemory`.
pub fn read_json(alloc: Global, line: &[u8]) -> Result<Value, Refusal>
    ensures { IsJsonOfLine line.now result }
{
    match parse_json(alloc, line) {
        Ok(Some(value)) => Ok(value),
        Ok(None) => Err(Refusal::BadJson),
        Err(_) => Err(Refusal::OutOfMemory),
    }
}
