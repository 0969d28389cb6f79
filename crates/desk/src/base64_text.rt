//! Bytes that a command holds in base64.
ghost use Rattle.desk.specs.Effects.{Says};

use crate::fault::Fault;
use base64::DecodeAllocError;
use base64::engine::general_purpose::STANDARD;
use std::alloc::Global;

/// Decodes a text in base64 (RFC 4648, section 4). The text must be exactly the encoding of the
/// returned bytes: padded, with no spare bits and no white space.
pub fn bytes_of(alloc: Global, text: &str) -> Result<Vec<u8>, Fault>
    ensures { Says text.now result }
{
    match STANDARD.decode(alloc, text.as_bytes()) {
        Ok(bytes) => Ok(bytes),
        Err(DecodeAllocError::DecodeError(_)) => Err(Fault::BadBase64),
        Err(DecodeAllocError::OutOfMemory) => Err(Fault::OutOfMemory),
    }
}
