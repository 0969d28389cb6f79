//! `place`: an offset in each unit, and the place of the code point there.
ghost use Rattle.line_protocol.specs.{Parsed.IsCommandBy, Inline.IsShortLine, Ops.Place.place_fields, Ops.Place.found_place_data};

use crate::reply_line::{Content, ShortText, short_line};
use crate::request::{Field, Parsed, command, fields};
use desk::{Command, MAX_NUMBER, ops};

/// The command, or the first faulty field.
pub(crate) fn command(value: Parsed<'_>) -> Result<Command<'_>, Field>
    ensures { IsCommandBy place_fields value.entry result }
{
    command!(Place, value, {
        unit: Unit = fields::place_unit(value),
        value: Value = fields::number(value, "value", MAX_NUMBER),
    })
}

/// An offset in each unit, and the place of the code point there.
pub(crate) fn line(id: u64, reply: &ops::PlaceReply) -> ShortText
    ensures { IsShortLine (found_place_data id reply.now) result }
{
    let place = match reply.place {
        Some(place) => Content::At(place),
        None => Content::Nothing,
    };
    short_line(&[
        ("id", Content::Number(id)),
        ("place", place),
        ("rev", Content::Number(reply.rev)),
        ("utf16", Content::Number(reply.utf16)),
        ("utf32", Content::Number(reply.utf32)),
        ("utf8", Content::Number(reply.utf8)),
    ])
}
