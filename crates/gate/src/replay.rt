//! The playing of a trace from the standard input.
ghost use Rattle.std.specs.Prelude.{◌≡◌, ◌+◌, Err};
ghost use Rattle.gateway.specs.Trace.{TraceReads, trace_write_failures};
ghost use Rattle.gate.specs.Serving.{beginning};
ghost use Rattle.gate.specs.Replaying.{trace_answer, Replayed};

use crate::beginning::beginning;
use crate::failure::Failure;
use enc_names::Labels;
use gateway::{Feed, Outlet, TraceFault, trace_with_head};
use index_loader::Indexes;
use std::alloc::Global;

/// Plays the trace that is read, and prints its replies and refusals (`replays`). The gateway
/// begins with these index files and labels. Its only documents are those of the trace's head, and
/// no connection is open.
///
/// The input is read to its end, or up to the fault (`reads`). One write failed if the failure is
/// `Write`, and otherwise none (`write_failures`).
///
/// # Errors
///
/// A line of the trace has no event, a read failed, a write failed, the input was read 2^32 times,
/// or memory ran out for a line of the trace.
pub fn replay<'a, R: Feed, W: Outlet>(
    alloc: Global,
    indexes: &Indexes,
    labels: Labels,
    input: &mut R,
    output: &mut W,
) -> Result<(), Failure<'a>>
    ensures replays { Replayed (trace_answer result) (beginning indexes.now labels) (R.seen input.old) (R.seen input.new)
        (W.took output.old).written (W.took output.new).written }
    ensures reads { TraceReads (trace_answer result) (R.seen input.old) (R.seen input.new) }
    ensures write_failures { (W.took output.new).failures ≡ (W.took output.old).failures + trace_write_failures (trace_answer result) }
{
    let mut gateway = beginning(alloc, indexes, labels);
    match trace_with_head(alloc, &mut gateway, input, output) {
        Ok(()) => Ok(()),
        Err(fault) => Err(failure_of(fault)),
    }
}

/// The failure for a fault of a trace.
fn failure_of<'a>(fault: TraceFault) -> Failure<'a>
    ensures { trace_answer {A = Unit {0}} (Err result) ≡ Err fault }
{
    match fault {
        TraceFault::BadLine(number) => Failure::TraceLine(number),
        TraceFault::Read => Failure::Read,
        TraceFault::Write => Failure::Write,
        TraceFault::TooManyReads => Failure::TooManyReads,
        TraceFault::OutOfMemory => Failure::OutOfMemory,
    }
}
