//! One complete line: its request, and its reply.
ghost use Rattle.std.specs.Prelude.{◌≡◌, ◌+◌, ℕ, List, length, min, IfOk};
ghost use Rattle.desk.specs.Desk.{Office};
ghost use Rattle.line_protocol.specs.Step.{Replies, IsStep, line_limit, step_by};
ghost use Rattle.line_protocol.specs.{Ops.overview_text, Parsed.parsed_data, Request.request_of};

use crate::ops::{overview_line, request_in};
use crate::reply_line::ReplyLine;
use crate::request::{FlatObject, Parsed, Refusal, Wanted, flat_object, read_json};
use desk::{Desk, Overview};
use std::alloc::{AllocError, Global};

/// The most bytes of a line, its line feed left out.
pub const LINE_LIMIT: usize = 4_194_304;

/// Answers a complete line, given without its line feed.
pub fn reply_to(desk: &mut Desk<'_>, alloc: Global, line: &[u8]) -> ReplyLine
    ensures { Replies desk.old line.now result desk.new }
{
    if line.len() > LINE_LIMIT {
        return ReplyLine::refused(Refusal::LineTooLong);
    }
    let mut object = FlatObject::new();
    if flat_object(line, &mut object) {
        return answer(desk, alloc, Parsed::Flat(&object));
    }
    match read_json(alloc, line) {
        Ok(value) => answer(desk, alloc, Parsed::Tree(&value)),
        Err(refusal) => ReplyLine::refused(refusal),
    }
}

/// Answers the request in a JSON value.
fn answer(desk: &mut Desk<'_>, alloc: Global, value: Parsed<'_>) -> ReplyLine
    ensures { IsStep desk.old (step_by desk.old (request_of (parsed_data value.entry))) result desk.new }
{
    match request_in(alloc, value) {
        Ok((id, Wanted::Document(command))) => {
            let reply = desk.answer(&command);
            match ReplyLine::of(alloc, id, &reply) {
                Ok(line) => line,
                Err(_) => ReplyLine::out_of_memory(),
            }
        }
        Ok((id, Wanted::Desk(overview))) => match overview_of(desk, alloc, id, overview) {
            Ok(line) => line,
            Err(_) => ReplyLine::out_of_memory(),
        },
        Err(refusal) => ReplyLine::refused(refusal),
    }
}

/// The line that answers a question about the desk as a whole. It fails only if memory runs out.
fn overview_of(
    desk: &Desk<'_>,
    alloc: Global,
    id: u64,
    overview: Overview,
) -> Result<ReplyLine, AllocError>
    ensures { IfOk result (λ line. line ≡ overview_text id desk.now overview) }
{
    overview_line(alloc, id, &desk.overview(overview)?)
}

/// The reply to a line whose bytes were dropped. Only their number is known, counted up to the first
/// byte that is too many.
pub fn reply_to_dropped(count: usize) -> ReplyLine
    ensures { (line : List ℕ) (office : Office) → count ≡ min (length line) (line_limit + 1) → Replies office line result office }
{
    if count > LINE_LIMIT {
        ReplyLine::refused(Refusal::LineTooLong)
    } else {
        ReplyLine::out_of_memory()
    }
}
