//! `source`: bytes of the document.
ghost use Rattle.line_protocol.specs.{Parsed.IsCommandBy, Ops.Source.source_fields};

use crate::request::{Field, Parsed, command, fields};
use desk::{Command, MAX_NUMBER};

/// The command, or the first faulty field.
pub(crate) fn command(value: Parsed<'_>) -> Result<Command<'_>, Field>
    ensures { IsCommandBy source_fields value.entry result }
{
    command!(Source, value, {
        at: At = fields::number(value, "at", MAX_NUMBER),
        len: Len = fields::number(value, "len", MAX_NUMBER),
    })
}
