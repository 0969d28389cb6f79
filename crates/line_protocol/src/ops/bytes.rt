//! The reply to `source` and `encode`.
ghost use Rattle.line_protocol.specs.{Inline.IsLongLine, Ops.Bytes.bytes_data};

use crate::reply_line::{Content, sent_line};
use base64::engine::general_purpose::STANDARD;
use desk::BytesReply;
use std::alloc::{AllocError, Global};

/// The line with the bytes that were asked for, in base64.
pub(crate) fn line(alloc: Global, id: u64, reply: &BytesReply) -> Result<Vec<u8>, AllocError>
    ensures { IsLongLine (bytes_data id reply.now) result }
{
    let bytes = STANDARD.encode(alloc, reply.bytes.as_slice())?;
    sent_line(
        alloc,
        &[
            ("bytes", Content::Text(bytes.as_str())),
            ("id", Content::Number(id)),
            ("rev", Content::Number(reply.rev)),
        ],
    )
}
