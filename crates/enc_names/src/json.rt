//! JSON texts: label files and the lines of commands are parsed by the same rules.
ghost use Rattle.std.specs.Prelude.{◌≡◌, ◌<◌, IfOk, OnErr, length, option_map};
ghost use Rattle.serde_json.specs.View.{view};
ghost use Rattle.enc_names.specs.Json.{json_of};

use serde_json::{Category, Value};
use std::alloc::{AllocError, Global};

/// Parses the value of a JSON text (RFC 8259) (`ok`). It returns `None` if the bytes aren't UTF-8
/// or aren't JSON, or if they nest deeper than 127 levels. So it does if they have an escape of a
/// lone surrogate, or a number too large for a double. Memory can only run out if there are bytes
/// (`err`).
pub fn parse_json(alloc: Global, bytes: &[u8]) -> Result<Option<Value>, AllocError>
    ensures ok { IfOk result (λ value. option_map (λ v. view v) value ≡ json_of bytes.now) }
    ensures err { OnErr result (0 < length bytes.now) }
{
    match Value::from_slice(alloc, bytes) {
        Ok(value) => Ok(Some(value)),
        Err(error) => match error.classify() {
            Category::Memory => Err(AllocError),
            _ => Ok(None),
        },
    }
}
