//! `lines`: a page of lines.
ghost use Rattle.line_protocol.specs.{Parsed.IsCommandBy, Inline.IsLongLine, Ops.Lines.lines_fields, Ops.Lines.lines_data, Ops.Lines.line_data};

use crate::reply_line::{Content, Digits, Entry, ShortText, list_line, put_pair};
use crate::request::{Field, MAX_ENTRIES, Parsed, command, fields};
use desk::{Command, Line, MAX_NUMBER, ops};
use std::alloc::{AllocError, Global};

/// The command, or the first faulty field.
pub(crate) fn command(value: Parsed<'_>) -> Result<Command<'_>, Field>
    ensures { IsCommandBy lines_fields value.entry result }
{
    command!(Lines, value, {
        from: From = fields::number(value, "from", MAX_NUMBER),
        max: Max = fields::number(value, "max", MAX_ENTRIES),
    })
}

/// The line with a page of lines.
pub(crate) fn line(alloc: Global, id: u64, reply: &ops::LinesReply) -> Result<Vec<u8>, AllocError>
    ensures { IsLongLine (lines_data id reply.now) result }
{
    let front = [
        ("count", Content::Number(reply.count)),
        ("id", Content::Number(id)),
    ];
    let back = [("rev", Content::Number(reply.rev))];
    list_line(alloc, &front, "lines", &reply.lines, &back)
}

impl Entry for Line {
    ghost json = { line_data };

    fn put(&self, text: &mut ShortText, digits: &mut Digits) {
        put_pair(text, digits, self.start, self.end)
    }
}
