//! `since`: the splice since a revision.
ghost use Rattle.line_protocol.specs.Ops.Since.{since_fields, since_data, patch_data, ranged_patch_data};
ghost use Rattle.line_protocol.specs.{Parsed.IsCommandBy, Inline.IsShortLine};

use crate::reply_line::{Content, ShortText, short_line};
use crate::request::{Field, Parsed, command, fields};
use desk::{Command, MAX_NUMBER, Patch, ops};
use position_map::Range;

/// The command, or the first faulty field.
pub(crate) fn command(value: Parsed<'_>) -> Result<Command<'_>, Field>
    ensures { IsCommandBy since_fields value.entry result }
{
    command!(Since, value, {
        rev: Rev = fields::number(value, "rev", MAX_NUMBER),
        unit: Unit = fields::optional_unit(value),
    })
}

/// The splice since a revision, with its range if one is wanted.
pub(crate) fn line(id: u64, reply: &ops::SinceReply) -> ShortText
    ensures { IsShortLine (since_data id reply.now) result }
{
    match reply.range {
        Some(range) => ranged_patch(id, reply.rev, reply.patch, range),
        None => patch(id, reply.rev, reply.patch),
    }
}

/// A splice.
fn patch(id: u64, rev: u64, patch: Patch) -> ShortText
    ensures { IsShortLine (patch_data id rev patch) result }
{
    short_line(&[
        ("at", Content::Small(patch.at)),
        ("del", Content::Small(patch.del)),
        ("id", Content::Number(id)),
        ("ins", Content::Small(patch.ins)),
        ("rev", Content::Number(rev)),
    ])
}

/// A splice with the range of its text.
fn ranged_patch(id: u64, rev: u64, patch: Patch, range: Range) -> ShortText
    ensures { IsShortLine (ranged_patch_data id rev patch range) result }
{
    short_line(&[
        ("at", Content::Small(patch.at)),
        ("del", Content::Small(patch.del)),
        ("end", Content::Point(range.end)),
        ("id", Content::Number(id)),
        ("ins", Content::Small(patch.ins)),
        ("rev", Content::Number(rev)),
        ("start", Content::Point(range.start)),
    ])
}
