//! `splice`: bytes replace others.
ghost use Rattle.line_protocol.specs.{Parsed.IsCommandBy, Ops.Splice.splice_fields};

use crate::request::{Field, Parsed, command, fields};
use desk::{Command, MAX_NUMBER};

/// The command, or the first faulty field.
pub(crate) fn command(value: Parsed<'_>) -> Result<Command<'_>, Field>
    ensures { IsCommandBy splice_fields value.entry result }
{
    command!(Splice, value, {
        rev: Rev = fields::number(value, "rev", MAX_NUMBER),
        at: At = fields::number(value, "at", MAX_NUMBER),
        del: Del = fields::number(value, "del", MAX_NUMBER),
        bytes: Bytes = fields::text(value, "bytes"),
    })
}
