//! `encode`: a part of the text in an encoding.
ghost use Rattle.line_protocol.specs.{Parsed.IsCommandBy, Ops.Encode.encode_fields};

use crate::request::{Field, Parsed, command, fields};
use desk::{Command, MAX_NUMBER};

/// The command, or the first faulty field.
pub(crate) fn command(value: Parsed<'_>) -> Result<Command<'_>, Field>
    ensures { IsCommandBy encode_fields value.entry result }
{
    command!(Encode, value, {
        from: From = fields::number(value, "from", MAX_NUMBER),
        to: To = fields::number(value, "to", MAX_NUMBER),
        label: Label = fields::text(value, "label"),
        mode: Mode = fields::encode_mode(value),
    })
}
