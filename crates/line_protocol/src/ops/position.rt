//! `position`: the position of an offset.
ghost use Rattle.line_protocol.specs.{Parsed.IsCommandBy, Inline.IsShortLine, Ops.Position.position_fields, Ops.Position.position_data};

use crate::reply_line::{Content, ShortText, short_line};
use crate::request::{Field, Parsed, command, fields};
use desk::{Command, MAX_NUMBER, ops};

/// The command, or the first faulty field.
pub(crate) fn command(value: Parsed<'_>) -> Result<Command<'_>, Field>
    ensures { IsCommandBy position_fields value.entry result }
{
    command!(Position, value, {
        offset: Offset = fields::number(value, "offset", MAX_NUMBER),
        unit: Unit = fields::unit(value),
    })
}

/// The position of an offset.
pub(crate) fn line(id: u64, reply: &ops::PositionReply) -> ShortText
    ensures { IsShortLine (position_data id reply.now) result }
{
    short_line(&[
        ("character", Content::Number(reply.character)),
        ("id", Content::Number(id)),
        ("line", Content::Number(reply.line)),
        ("rev", Content::Number(reply.rev)),
    ])
}
