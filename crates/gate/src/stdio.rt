//! Serving of the standard streams: one connection, from an input to an output.
ghost use Rattle.std.specs.Prelude.{◌≡◌, ◌+◌, ◌≢◌, Err, None};
ghost use Rattle.gateway.specs.Reading.{ReadUp};
ghost use Rattle.gateway.specs.Events.{Opening, gate_fault};
ghost use Rattle.gateway.specs.Serving.{RunGives, run_ended, write_failures_of};
ghost use Rattle.gateway.specs.RunFault.TheVariants.{NotFree};
ghost use Rattle.gate.specs.Serving.{beginning, run_answer, Served};

use crate::beginning::beginning;
use crate::failure::Failure;
use enc_names::Labels;
use gateway::{Feed, KeepsEvents, Outlet, RunFault, run};
use index_loader::Indexes;
use std::alloc::Global;

/// Serves one connection, from the input to the output. It reads the input to its end, and writes
/// the replies to the output (`runs`). The reply to each complete line is written before the next
/// line is decided. The gateway begins with these index files and labels and with no document, and
/// doesn't record (`unrecorded`). The call never fails because its connection is in use
/// (`is_free`).
///
/// The input is read to its end, or up to the fault (`reads`). One write failed if the failure is
/// `Write`, and otherwise none (`write_failures`).
///
/// # Errors
///
/// A read failed, a write failed, or the input was read 2^32 times.
pub fn serve_stdio<'a, R: Feed, W: Outlet>(
    alloc: Global,
    indexes: &Indexes,
    labels: Labels,
    input: &mut R,
    output: &mut W,
) -> Result<(), Failure<'a>>
    ensures is_free { run_answer result ≢ Err NotFree }
    ensures runs { Served (run_answer result) (beginning indexes.now labels) (R.seen input.old) (R.seen input.new)
        (W.took output.old).written (W.took output.new).written }
    ensures reads { ReadUp (run_ended (run_answer result)) (R.seen input.old) (R.seen input.new) }
    ensures write_failures { (W.took output.new).failures ≡ (W.took output.old).failures + write_failures_of (run_answer result) }
    ensures unrecorded { result ≢ Err Failure.Record }
{
    let mut gateway = beginning(alloc, indexes, labels);
    serve_over(&mut gateway, input, output)
}

/// Serves one connection like `serve_stdio`, by an existing gateway, for example one that records
/// (`runs`). Connection 0 of the gateway isn't open, so the call never fails because it is in use
/// (`is_free`). The input is read to its end, or up to the fault (`reads`). One write failed if the
/// failure is `Write`, and otherwise none (`write_failures`).
///
/// # Errors
///
/// The errors of `serve_stdio`. Also, input can't be recorded; a gateway that keeps all bytes never
/// causes this (`keeps`).
pub fn serve_over<'a, G: KeepsEvents, R: Feed, W: Outlet>(
    gateway: &mut G,
    input: &mut R,
    output: &mut W,
) -> Result<(), Failure<'a>>
    requires { gate_fault (G.traffic gateway.old).lines (Opening 0) ≡ None }
    ensures is_free { run_answer result ≢ Err NotFree }
    ensures runs { RunGives (run_answer result) 0 (G.traffic gateway.old) (G.traffic gateway.new) (R.seen input.old) (R.seen input.new)
        (W.took output.old).written (W.took output.new).written }
    ensures reads { ReadUp (run_ended (run_answer result)) (R.seen input.old) (R.seen input.new) }
    ensures write_failures { (W.took output.new).failures ≡ (W.took output.old).failures + write_failures_of (run_answer result) }
    ensures keeps { G.keeps_all → result ≢ Err Failure.Record }
{
    match run(gateway, 0, input, output) {
        Ok(()) => Ok(()),
        Err(fault) => Err(failure_of(fault)),
    }
}

/// The failure for a fault of a run on a connection that is free.
pub fn failure_of<'a>(fault: RunFault) -> Failure<'a>
    requires { fault ≢ NotFree }
    ensures { run_answer {A = Unit {0}} (Err result) ≡ Err fault }
{
    match fault {
        RunFault::Read => Failure::Read,
        RunFault::Write => Failure::Write,
        RunFault::Unkept => Failure::Record,
        RunFault::TooManyReads => Failure::TooManyReads,
        RunFault::NotFree => unreachable!(),
    }
}
