//! The reply to `open` and `splice`.
ghost use Rattle.line_protocol.specs.{Inline.IsShortLine, Ops.Edited.edited_data};

use crate::reply_line::{Content, ShortText, encoding_name, short_line};
use desk::EditedReply;

/// An open or a splice was accepted.
pub(crate) fn line(id: u64, reply: &EditedReply) -> ShortText
    ensures { IsShortLine (edited_data id reply.now) result }
{
    short_line(&[
        ("bom", Content::Number(reply.bom)),
        ("encoding", Content::Text(encoding_name(reply.encoding))),
        ("id", Content::Number(id)),
        ("rev", Content::Number(reply.rev)),
    ])
}
