//! Traces: lines that are events of many connections, played on a gateway.
ghost use Rattle.std.specs.Prelude.{◌≡◌, ◌+◌};
ghost use Rattle.gateway.specs.Trace.{Traces, TraceReads, trace_write_failures};
ghost use Rattle.gateway.specs.{Headed.TracesHeaded, Tracing.fault_by, Tracing.numbered_fault};

mod event;
mod fault;
mod feeding;
mod head;
mod head_reader;
mod headed;
mod line;
mod order;
mod play;
mod print;

use crate::traces::fault::LineFault;
use crate::traces::feeding::TracePlace;
use crate::traces::headed::{HeadedPlace, line_fault};
use connections::{Gateway, TakesEvents, law_lines};
use devices::{Feed, Outlet, Stop, pump};
pub use fault::TraceFault;
pub use head::{HeadFault, HeadParts, law_heads, may_head};
use std::alloc::Global;

/// Plays the events on the lines that are read, and prints the replies (`traces`). The forms of a
/// line are `open C`, `bytes C BASE64` and `close C`. `C` is a number from 0 to 255. Empty lines
/// and lines that begin with `#` are skipped. The last line may lack its line feed.
///
/// Each reply is printed as `C`, a space and the reply line. Each refused event is printed once a
/// line, as `C`, a space, `!` and the fault's name.
///
/// A line is decided after the replies to the lines before it were written. The effects of the
/// lines played remain, even after a fault: connections that are open at the end stay open.
///
/// The reader is read to its end, or up to the fault (`reads`). One write failed if the fault is
/// `Write`, and otherwise none (`write_failures`).
///
/// # Errors
///
/// - `BadLine`, with the number of the first line that isn't skipped and has no event, or is longer
///   than 6,291,456 bytes.
/// - `Read` or `Write` if a device failed.
/// - `TooManyReads`.
/// - `OutOfMemory` in a line that isn't skipped, of which at least a byte was read.
pub fn trace<G: TakesEvents, R: Feed, W: Outlet>(
    alloc: Global,
    gateway: &mut G,
    reader: &mut R,
    writer: &mut W,
) -> Result<(), TraceFault>
    ensures traces { Traces result (G.traffic gateway.old) (G.traffic gateway.new) (R.seen reader.old) (R.seen reader.new)
        (W.took writer.old).written (W.took writer.new).written }
    ensures reads { TraceReads result (R.seen reader.old) (R.seen reader.new) }
    ensures write_failures { (W.took writer.new).failures ≡ (W.took writer.old).failures + trace_write_failures result }
{
    law_lines();
    let mut place = TracePlace::start(alloc);
    match pump(reader, &mut place, gateway, writer) {
        Ok(()) => {}
        Err(stop) => return Err(fault_of(stop, place.number)),
    }
    let last = place.number;
    match place.finish(gateway, writer) {
        Ok(()) => Ok(()),
        Err(fault) => Err(fault_at(fault, last)),
    }
}

/// Plays a trace that may begin with a head (`traces`). The lines of a head are `part BASE64` and
/// `adopt NAME ENCODING BOM REV`, by which documents are adopted. The first line of another kind
/// ends the head. From there the lines are played like `trace` does. Nothing is printed for a head.
///
/// The reader is read to its end, or up to the fault (`reads`). One write failed if the fault is
/// `Write`, and otherwise none (`write_failures`).
///
/// # Errors
///
/// The errors of `trace`. `BadLine` also reports the number of a line of the head that has no
/// order, or one that can't be obeyed.
pub fn trace_with_head<R: Feed, W: Outlet>(
    alloc: Global,
    gateway: &mut Gateway<'_>,
    reader: &mut R,
    writer: &mut W,
) -> Result<(), TraceFault>
    ensures traces { TracesHeaded result gateway.old gateway.new (R.seen reader.old) (R.seen reader.new)
        (W.took writer.old).written (W.took writer.new).written }
    ensures reads { TraceReads result (R.seen reader.old) (R.seen reader.new) }
    ensures write_failures { (W.took writer.new).failures ≡ (W.took writer.old).failures + trace_write_failures result }
{
    law_lines();
    let mut place = HeadedPlace::start(alloc);
    match pump(reader, &mut place, gateway, writer) {
        Ok(()) => {}
        Err(stop) => return Err(fault_of(stop, place.place.number)),
    }
    let last = place.place.number;
    if place.over {
        match place.place.finish(gateway, writer) {
            Ok(()) => return Ok(()),
            Err(fault) => return Err(fault_at(fault, last)),
        }
    }
    match place.head.end(gateway) {
        Ok(()) => Ok(()),
        Err(fault) => Err(fault_at(line_fault(fault), last)),
    }
}

/// The fault of a trace that stopped so, in the line of this number.
fn fault_of(stop: Stop<LineFault>, number: u64) -> TraceFault
    ensures { result ≡ fault_by stop number }
{
    match stop {
        Stop::Read => TraceFault::Read,
        Stop::TooManyReads => TraceFault::TooManyReads,
        Stop::Taker(fault) => fault_at(fault, number),
    }
}

/// The fault of the line of this number.
fn fault_at(fault: LineFault, number: u64) -> TraceFault
    ensures { result ≡ numbered_fault fault number }
{
    match fault {
        LineFault::Bad => TraceFault::BadLine(number),
        LineFault::Write => TraceFault::Write,
        LineFault::OutOfMemory => TraceFault::OutOfMemory,
    }
}
