//! `text`: a part of the text.
ghost use Rattle.line_protocol.specs.{Parsed.IsCommandBy, Inline.IsLongLine, Ops.Text.text_fields, Ops.Text.text_data};

use crate::reply_line::{Content, sent_line};
use crate::request::{Field, Parsed, command, fields};
use desk::{Command, MAX_NUMBER, ops};
use std::alloc::{AllocError, Global};

/// The command, or the first faulty field.
pub(crate) fn command(value: Parsed<'_>) -> Result<Command<'_>, Field>
    ensures { IsCommandBy text_fields value.entry result }
{
    command!(Text, value, {
        from: From = fields::number(value, "from", MAX_NUMBER),
        to: To = fields::number(value, "to", MAX_NUMBER),
        mode: Mode = fields::text_mode(value),
    })
}

/// The line with the text that was asked for.
pub(crate) fn line(alloc: Global, id: u64, reply: &ops::TextReply) -> Result<Vec<u8>, AllocError>
    ensures { IsLongLine (text_data id reply.now) result }
{
    sent_line(
        alloc,
        &[
            ("id", Content::Number(id)),
            ("rev", Content::Number(reply.rev)),
            ("text", Content::Text(reply.text.as_str())),
        ],
    )
}
