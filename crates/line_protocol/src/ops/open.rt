//! `open`: a document is opened.
ghost use Rattle.line_protocol.specs.{Parsed.IsCommandBy, Ops.Open.open_fields};

use crate::request::{Field, Parsed, command, fields};
use desk::Command;

/// The command, or the first faulty field.
pub(crate) fn command(value: Parsed<'_>) -> Result<Command<'_>, Field>
    ensures { IsCommandBy open_fields value.entry result }
{
    command!(Open, value, {
        label: Label = fields::text(value, "label"),
        bytes: Bytes = fields::text(value, "bytes"),
        bom: Bom = fields::bom(value),
    })
}
