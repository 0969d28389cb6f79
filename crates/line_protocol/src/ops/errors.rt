//! `errors`: a page of the places of errors.
ghost use Rattle.line_protocol.specs.{Parsed.IsCommandBy, Inline.IsLongLine, Values.place_data, Ops.Errors.errors_fields, Ops.Errors.errors_data};

use crate::reply_line::{Content, Digits, Entry, ShortText, list_line, put_pair};
use crate::request::{Field, MAX_ENTRIES, Parsed, command, fields};
use desk::{Command, MAX_NUMBER, ops};
use enc_names::Place;
use std::alloc::{AllocError, Global};

/// The command, or the first faulty field.
pub(crate) fn command(value: Parsed<'_>) -> Result<Command<'_>, Field>
    ensures { IsCommandBy errors_fields value.entry result }
{
    command!(Errors, value, {
        from: From = fields::number(value, "from", MAX_NUMBER),
        max: Max = fields::number(value, "max", MAX_ENTRIES),
    })
}

/// The line with a page of error places.
pub(crate) fn line(alloc: Global, id: u64, reply: &ops::ErrorsReply) -> Result<Vec<u8>, AllocError>
    ensures { IsLongLine (errors_data id reply.now) result }
{
    let back = [
        ("id", Content::Number(id)),
        ("rev", Content::Number(reply.rev)),
        ("total", Content::Number(reply.total)),
    ];
    list_line(alloc, &[], "errors", &reply.places, &back)
}

impl Entry for Place {
    ghost json = { place_data };

    fn put(&self, text: &mut ShortText, digits: &mut Digits) {
        put_pair(text, digits, self.from, self.to)
    }
}
