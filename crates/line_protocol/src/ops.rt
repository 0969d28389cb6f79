//! The table of the ops: the command of each, read off the fields of a request, and the line of its reply.
ghost use Rattle.std.specs.Prelude.{◌≡◌, ◌≤◌, length, true, IfOk, IsOk};
ghost use Rattle.line_protocol.specs.{Inline.inline_limit, Ops.is_short, Ops.reply_text, Parsed.parsed_data, Request.IsRequest};
ghost use Rattle.line_protocol.specs.{Ops.overview_data, Replies.line_of};
ghost use Rattle.line_protocol.specs.declared.request.refusal.Refusal.TheVariants.{BadRequest};

mod bytes;
mod change;
mod changes;
mod close;
mod diagnostics;
mod documents;
mod edited;
mod encode;
mod errors;
mod hello;
mod lines;
mod offset;
mod open;
mod place;
mod plan;
mod position;
mod replace;
mod since;
mod source;
mod splice;
mod stat;
mod text;

use crate::reply_line::{Reason, ReplyLine, ShortText};
use crate::request::{Field, Parsed, Refusal, Wanted, change_list, fields, need};
use desk::{MAX_NUMBER, Overview, OverviewReply, Reply};
use std::alloc::{AllocError, Global};

/// Reads a request's number, and what it asks, from a value parsed in either way.
pub(crate) fn request_in(alloc: Global, value: Parsed<'_>) -> Result<(u64, Wanted<'_>), Refusal>
    ensures { IsRequest (parsed_data value.entry) result }
{
    if !value.is_object() {
        return Err(bad(None, Field::Object));
    }
    let id = need!(
        bad(None, Field::Id),
        fields::number(value, "id", MAX_NUMBER)
    );
    let op = need!(bad(Some(id), Field::Op), fields::text(value, "op"));
    let command = match op {
        "open" => open::command(value),
        "close" => close::command(value),
        "splice" => splice::command(value),
        "change" => change::command(value),
        "changes" => changes::command(value, change_list(alloc, value)?),
        "replace" => replace::command(value),
        "plan" => plan::command(value),
        "text" => text::command(value),
        "source" => source::command(value),
        "encode" => encode::command(value),
        "errors" => errors::command(value),
        "diagnostics" => diagnostics::command(value),
        "lines" => lines::command(value),
        "position" => position::command(value),
        "offset" => offset::command(value),
        "place" => place::command(value),
        "since" => since::command(value),
        "stat" => stat::command(value),
        "documents" => return Ok((id, Wanted::Desk(Overview::Documents))),
        "hello" => return Ok((id, Wanted::Desk(Overview::Hello))),
        _ => return Err(Refusal::UnknownOp { id }),
    };
    match command {
        Ok(command) => Ok((id, Wanted::Document(command))),
        Err(field) => Err(bad(Some(id), field)),
    }
}

/// The refusal for a field.
fn bad(id: Option<u64>, field: Field) -> Refusal
    ensures { result ≡ BadRequest id field }
{
    Refusal::BadRequest { id, field }
}

impl ReplyLine {
    /// Writes the line that answers request `id` (`text`). A short reply always succeeds (`short`)
    /// and fits in a line without an allocation (`inline`).
    ///
    /// # Errors
    ///
    /// Memory ran out, which happens only for a text or a list.
    pub fn of(alloc: Global, id: u64, reply: &Reply) -> Result<ReplyLine, AllocError>
        ensures text { IfOk result (λ line. line ≡ reply_text id reply.now) }
        ensures short { is_short reply.now ≡ true → IsOk result }
        ensures inline { is_short reply.now ≡ true → IfOk result (λ line. length line ≤ inline_limit) }
    {
        match reply {
            Reply::Plan(reply) => Ok(ReplyLine::allocated(plan::line(alloc, id, reply)?)),
            Reply::Text(reply) => Ok(ReplyLine::allocated(text::line(alloc, id, reply)?)),
            Reply::Bytes(reply) => Ok(ReplyLine::allocated(bytes::line(alloc, id, reply)?)),
            Reply::Errors(reply) => Ok(ReplyLine::allocated(errors::line(alloc, id, reply)?)),
            Reply::Diagnostics(reply) => {
                Ok(ReplyLine::allocated(diagnostics::line(alloc, id, reply)?))
            }
            Reply::Lines(reply) => Ok(ReplyLine::allocated(lines::line(alloc, id, reply)?)),
            short => Ok(ReplyLine::inline(short_text_of(id, short))),
        }
    }
}

/// Writes the line that answers request `id` with what the desk as a whole has. It fails only if
/// memory runs out.
pub(crate) fn overview_line(
    alloc: Global,
    id: u64,
    reply: &OverviewReply<'_, '_>,
) -> Result<ReplyLine, AllocError>
    ensures { IfOk result (λ line. line ≡ line_of (overview_data id reply.now)) }
{
    let line = match reply {
        OverviewReply::Documents(reply) => documents::line(alloc, id, reply)?,
        OverviewReply::Hello(reply) => hello::line(alloc, id, reply)?,
    };
    Ok(ReplyLine::allocated(line))
}

/// The line of a reply that is stored inline. A function of its own, since one pays at its beginning
/// for each text that any of its branches makes.
#[inline(never)]
fn short_text_of(id: u64, reply: &Reply) -> ShortText
    requires { is_short reply.now ≡ true }
    ensures text { result ≡ reply_text id reply.now }
    ensures inline { length result ≤ inline_limit }
{
    match reply {
        Reply::Edited(reply) => edited::line(id, reply),
        Reply::Change(reply) => change::line(id, reply),
        Reply::Changes(reply) => changes::line(id, reply),
        Reply::Closed { rev } => close::line(id, *rev),
        Reply::Position(reply) => position::line(id, reply),
        Reply::Offset(reply) => offset::line(id, reply),
        Reply::Place(reply) => place::line(id, reply),
        Reply::Since(reply) => since::line(id, reply),
        Reply::Stat(reply) => stat::line(id, reply),
        Reply::Refused { fault } => Reason::of_fault(id, *fault).line(),
        _ => unreachable!(),
    }
}
