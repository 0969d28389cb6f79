//! `change`: a text replaces a range.
ghost use Rattle.line_protocol.specs.{Parsed.IsCommandBy, Inline.IsShortLine, Ops.Change.change_fields, Ops.Change.change_data};

use crate::reply_line::{Content, ShortText, encoding_name, short_line};
use crate::request::{Field, Parsed, command, fields};
use desk::{Command, MAX_NUMBER, ops};

/// The command, or the first faulty field.
pub(crate) fn command(value: Parsed<'_>) -> Result<Command<'_>, Field>
    ensures { IsCommandBy change_fields value.entry result }
{
    command!(Change, value, {
        rev: Rev = fields::number(value, "rev", MAX_NUMBER),
        unit: Unit = fields::unit(value),
        range: Range = fields::range(value),
        text: Text = fields::text(value, "text"),
    })
}

/// A change was accepted.
pub(crate) fn line(id: u64, reply: &ops::ChangeReply) -> ShortText
    ensures { IsShortLine (change_data id reply.now) result }
{
    short_line(&[
        ("at", Content::Number(reply.at)),
        ("bom", Content::Number(reply.bom)),
        ("del", Content::Number(reply.del)),
        ("encoding", Content::Text(encoding_name(reply.encoding))),
        ("id", Content::Number(id)),
        ("ins", Content::Number(reply.ins)),
        ("rev", Content::Number(reply.rev)),
    ])
}
