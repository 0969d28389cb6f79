//! `replace`: given bytes replace a range. Its reply is that of `change`.
ghost use Rattle.line_protocol.specs.{Parsed.IsCommandBy, Ops.Replace.replace_fields};

use crate::request::{Field, Parsed, command, fields};
use desk::{Command, MAX_NUMBER};

/// The command, or the first faulty field.
pub(crate) fn command(value: Parsed<'_>) -> Result<Command<'_>, Field>
    ensures { IsCommandBy replace_fields value.entry result }
{
    command!(Replace, value, {
        rev: Rev = fields::number(value, "rev", MAX_NUMBER),
        unit: Unit = fields::unit(value),
        range: Range = fields::range(value),
        text: Text = fields::text(value, "text"),
        bytes: Bytes = fields::text(value, "bytes"),
    })
}
