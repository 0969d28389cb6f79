//! `diagnostics`: a page of errors with their positions.
ghost use Rattle.line_protocol.specs.Ops.Diagnostics.{diagnostics_fields, diagnostics_data, diagnostic_data};
ghost use Rattle.line_protocol.specs.{Parsed.IsCommandBy, Inline.IsLongLine};

use crate::reply_line::{Content, Digits, Entry, ShortText, list_line, put_near};
use crate::request::{Field, MAX_ENTRIES, Parsed, fields, need};
use desk::{Command, ops};
use position_map::Diagnostic;
use std::alloc::{AllocError, Global};

/// The command, or the first faulty field.
pub(crate) fn command(value: Parsed<'_>) -> Result<Command<'_>, Field>
    ensures { IsCommandBy diagnostics_fields value.entry result }
{
    let doc = need!(Field::Doc, fields::name(value));
    let start = fields::page_start(value)?;
    let max = need!(Field::Max, fields::number(value, "max", MAX_ENTRIES));
    let unit = need!(Field::Unit, fields::unit(value));
    Ok(Command::Diagnostics(ops::Diagnostics {
        doc,
        start,
        max,
        unit,
    }))
}

/// The line with a page of errors with their positions.
pub(crate) fn line(
    alloc: Global,
    id: u64,
    reply: &ops::DiagnosticsReply,
) -> Result<Vec<u8>, AllocError>
    ensures { IsLongLine (diagnostics_data id reply.now) result }
{
    let back = [
        ("id", Content::Number(id)),
        ("rev", Content::Number(reply.rev)),
        ("total", Content::Number(reply.total)),
    ];
    list_line(alloc, &[], "diagnostics", &reply.diagnostics, &back)
}

impl Entry for Diagnostic {
    ghost json = { diagnostic_data };

    fn put(&self, text: &mut ShortText, digits: &mut Digits) {
        let (place, start, end) = (self.place, self.range.start, self.range.end);
        text.push(b'[');
        put_near(text, digits, place.from, place.to);
        text.push(b',');
        // An error is one code point, which mostly ends a unit or a few after its start.
        let mut line = Digits::of(start.line);
        let mut character = Digits::of(start.character);
        line.put(text);
        text.push(b',');
        character.put(text);
        text.push(b',');
        line.go_on(start.line, end.line);
        line.put(text);
        text.push(b',');
        character.go_on(start.character, end.character);
        character.put(text);
        text.push(b']');
    }
}
