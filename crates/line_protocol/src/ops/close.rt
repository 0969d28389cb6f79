//! `close`: a document is closed.
ghost use Rattle.line_protocol.specs.{Parsed.IsCommandBy, Inline.IsShortLine, Ops.Close.close_fields, Ops.Close.closed_data};

use crate::reply_line::{Content, ShortText, short_line};
use crate::request::{Field, Parsed, command};
use desk::Command;

/// The command, or the first faulty field.
pub(crate) fn command(value: Parsed<'_>) -> Result<Command<'_>, Field>
    ensures { IsCommandBy close_fields value.entry result }
{
    command!(Close, value, {})
}

/// A document was closed.
pub(crate) fn line(id: u64, rev: u64) -> ShortText
    ensures { IsShortLine (closed_data id rev) result }
{
    short_line(&[("id", Content::Number(id)), ("rev", Content::Number(rev))])
}
