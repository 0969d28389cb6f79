//! `stat`: how long a document and its text are.
ghost use Rattle.line_protocol.specs.{Parsed.IsCommandBy, Inline.IsShortLine, Ops.Stat.stat_fields, Ops.Stat.stat_data};

use crate::reply_line::{Content, ShortText, encoding_name, short_line};
use crate::request::{Field, Parsed, command};
use desk::{Command, ops};

/// The command, or the first faulty field.
pub(crate) fn command(value: Parsed<'_>) -> Result<Command<'_>, Field>
    ensures { IsCommandBy stat_fields value.entry result }
{
    command!(Stat, value, {})
}

/// How long a document and its text are.
pub(crate) fn line(id: u64, reply: &ops::StatReply) -> ShortText
    ensures { IsShortLine (stat_data id reply.now) result }
{
    short_line(&[
        ("bom", Content::Number(reply.bom)),
        ("bytes", Content::Small(reply.bytes)),
        ("encoding", Content::Text(encoding_name(reply.encoding))),
        ("errors", Content::Small(reply.errors)),
        ("given", Content::Text(encoding_name(reply.given))),
        ("id", Content::Number(id)),
        ("lines", Content::Small(reply.lines)),
        ("rev", Content::Number(reply.rev)),
        ("utf16", Content::Small(reply.utf16)),
        ("utf32", Content::Small(reply.utf32)),
        ("utf8", Content::Small(reply.utf8)),
    ])
}
