//! `offset`: the offset of a position.
ghost use Rattle.line_protocol.specs.{Parsed.IsCommandBy, Inline.IsShortLine, Ops.Offset.offset_fields, Ops.Offset.offset_data};

use crate::reply_line::{Content, ShortText, short_line};
use crate::request::{Field, Parsed, command, fields};
use desk::{Command, Line, MAX_NUMBER, ops};

/// The command, or the first faulty field.
pub(crate) fn command(value: Parsed<'_>) -> Result<Command<'_>, Field>
    ensures { IsCommandBy offset_fields value.entry result }
{
    command!(Offset, value, {
        line: Line = fields::number(value, "line", MAX_NUMBER),
        character: Character = fields::number(value, "character", MAX_NUMBER),
        unit: Unit = fields::unit(value),
    })
}

/// The offset of a position.
pub(crate) fn line(id: u64, reply: &ops::OffsetReply) -> ShortText
    ensures { IsShortLine (offset_data id reply.now) result }
{
    short_line(&[
        ("id", Content::Number(id)),
        ("offset", Content::Number(reply.offset)),
        ("rev", Content::Number(reply.rev)),
    ])
}
