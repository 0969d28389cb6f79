//! `changes`: a list of changes, all or none.
ghost use Rattle.std.specs.Prelude.{◌≡◌, map, option_map};
ghost use Rattle.desk.specs.Changes.{change_of};
ghost use Rattle.line_protocol.specs.Ops.Changes.{changes_fields, changes_data};
ghost use Rattle.line_protocol.specs.{Parsed.IsCommandBy, Parsed.parsed_data, Fields.changes_at, Inline.IsShortLine};

use crate::reply_line::{Content, ShortText, encoding_name, short_line};
use crate::request::{Field, Parsed, fields, need};
use desk::{Command, MAX_NUMBER, ops};

/// The command, or the first faulty field. The list of changes was read before, since it
/// takes memory; a faulty list is `None`.
pub(crate) fn command<'a>(
    value: Parsed<'a>,
    list: Option<Vec<ops::ContentChange<'a>>>,
) -> Result<Command<'a>, Field>
    requires { option_map (λ list. map change_of list.items) list ≡ changes_at (parsed_data value) }
    ensures { IsCommandBy changes_fields value.entry result }
{
    let doc = need!(Field::Doc, fields::name(value));
    let rev = need!(Field::Rev, fields::number(value, "rev", MAX_NUMBER));
    let unit = need!(Field::Unit, fields::unit(value));
    let changes = need!(Field::Changes, list);
    Ok(Command::Changes(ops::Changes {
        doc,
        rev,
        unit,
        changes,
    }))
}

/// A list of changes was accepted.
pub(crate) fn line(id: u64, reply: &ops::ChangesReply) -> ShortText
    ensures { IsShortLine (changes_data id reply.now) result }
{
    short_line(&[
        ("applied", Content::Number(reply.applied)),
        ("bom", Content::Number(reply.bom)),
        ("encoding", Content::Text(encoding_name(reply.encoding))),
        ("id", Content::Number(id)),
        ("rev", Content::Number(reply.rev)),
    ])
}
