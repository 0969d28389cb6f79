//! A complete line of a trace, and the result for a line whose bytes were dropped.
ghost use Rattle.std.specs.Prelude.{◌≡◌, ◌+◌, ℕ, List};
ghost use Rattle.connections.specs.{Events.happening, Traffic.Dropped, Traffic.known_of};
ghost use Rattle.gateway.specs.TraceLines.{Drops, MayBe, PlaysLine, line_write_failures};
ghost use Rattle.gateway.specs.{Trace.is_comment, Tracing.happening_of};

use crate::traces::event::{TRACE_LIMIT, TraceEvent, event_on_line};
use crate::traces::fault::LineFault;
use crate::traces::play::play;
use connections::{Event, Line, TakesEvents};
use devices::{Failed, Outlet};
use std::alloc::Global;

/// Plays a complete line, of which it is known whether it is a comment.
pub(super) fn play_line<G: TakesEvents, W: Outlet>(
    alloc: Global,
    gateway: &mut G,
    writer: &mut W,
    line: Line<'_>,
    comment: bool,
) -> Result<(), LineFault>
    ensures plays { (it : List ℕ) → MayBe (known_of line.entry) comment it
        → PlaysLine result it (G.traffic gateway.old) (G.traffic gateway.new) (W.took writer.old).written (W.took writer.new).written }
    ensures failures { (W.took writer.new).failures ≡ (W.took writer.old).failures + line_write_failures result }
{
    match line {
        Line::Whole(bytes) => play_kept(alloc, gateway, writer, bytes),
        Line::Joined(bytes) => play_kept(alloc, gateway, writer, &bytes),
        Line::Dropped(count) => dropped(count, comment),
    }
}

/// The result for a line of which `count` bytes were dropped. A comment isn't a fault, and neither
/// is a line without bytes.
pub(super) fn dropped(count: usize, comment: bool) -> Result<(), LineFault>
    ensures drops { (line : List ℕ) → MayBe (Dropped count) comment line → Drops result line }
    ensures silent { line_write_failures result ≡ 0 }
{
    if comment || count == 0 {
        Ok(())
    } else if count > TRACE_LIMIT {
        Err(LineFault::Bad)
    } else {
        Err(LineFault::OutOfMemory)
    }
}

/// Plays a line of these bytes.
fn play_kept<G: TakesEvents, W: Outlet>(
    alloc: Global,
    gateway: &mut G,
    writer: &mut W,
    line: &[u8],
) -> Result<(), LineFault>
    ensures plays { PlaysLine result line.now (G.traffic gateway.old) (G.traffic gateway.new) (W.took writer.old).written (W.took writer.new).written }
    ensures failures { (W.took writer.new).failures ≡ (W.took writer.old).failures + line_write_failures result }
{
    if line.is_empty() || begins_comment(line) {
        return Ok(());
    }
    let event = match event_on_line(alloc, line) {
        Ok(Some(event)) => event,
        Ok(None) => return Err(LineFault::Bad),
        Err(_) => return Err(LineFault::OutOfMemory),
    };
    match play(gateway, gateway_event(&event), writer) {
        Ok(()) => Ok(()),
        Err(Failed) => Err(LineFault::Write),
    }
}

/// The event for the gateway, which borrows the bytes.
fn gateway_event(event: &TraceEvent) -> Event<'_>
    ensures { happening result ≡ happening_of event.now }
{
    match event {
        TraceEvent::Open(c) => Event::Open(*c),
        TraceEvent::Bytes(c, bytes) => Event::Bytes(*c, bytes),
        TraceEvent::Close(c) => Event::Close(*c),
    }
}

/// Whether a line that begins with these bytes is a comment.
pub(super) fn begins_comment(bytes: &[u8]) -> bool
    ensures { result ≡ is_comment bytes.now }
{
    match bytes.first() {
        Some(byte) => *byte == b'#',
        None => false,
    }
}
