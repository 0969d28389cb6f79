//! `plan`: what a change would do.
ghost use Rattle.line_protocol.specs.{Parsed.IsCommandBy, Inline.IsLongLine, Ops.Plan.plan_fields, Ops.Plan.plan_data};

use crate::reply_line::{Content, sent_line};
use crate::request::{Field, Parsed, command, fields};
use base64::engine::general_purpose::STANDARD;
use desk::{Command, ops};
use std::alloc::{AllocError, Global};

/// The command, or the first faulty field.
pub(crate) fn command(value: Parsed<'_>) -> Result<Command<'_>, Field>
    ensures { IsCommandBy plan_fields value.entry result }
{
    command!(Plan, value, {
        unit: Unit = fields::unit(value),
        range: Range = fields::range(value),
        text: Text = fields::text(value, "text"),
    })
}

/// The line with what a change would do, the bytes in base64.
pub(crate) fn line(alloc: Global, id: u64, reply: &ops::PlanReply) -> Result<Vec<u8>, AllocError>
    ensures { IsLongLine (plan_data id reply.now) result }
{
    let bytes = STANDARD.encode(alloc, reply.bytes.as_slice())?;
    let old = STANDARD.encode(alloc, reply.old.as_slice())?;
    sent_line(
        alloc,
        &[
            ("at", Content::Number(reply.at)),
            ("bytes", Content::Text(bytes.as_str())),
            ("del", Content::Number(reply.old.as_slice().len() as u64)),
            ("id", Content::Number(id)),
            ("kept", Content::Flag(reply.kept)),
            ("old", Content::Text(old.as_str())),
            ("rev", Content::Number(reply.rev)),
        ],
    )
}
