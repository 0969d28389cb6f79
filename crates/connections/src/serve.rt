//! One connection, from a reader to a writer.
ghost use Rattle.std.specs.Prelude.{◌≡◌, ◌≢◌, ◌+◌, ◌<◌, ◌↔◌, None, Err, Some, [], IsSome, IfErr, OnOk, OnErr, length};
ghost use Rattle.devices.specs.{Devices.failures_after, Reading.ReadUp};
ghost use Rattle.connections.specs.Events.{connections, gate_fault, Opening, Bringing, Happens, with_line};
ghost use Rattle.connections.specs.Serving.{RunGives, run_ended, write_failures_of};
ghost use Rattle.connections.specs.Delivery.{IsOpen, WritesReply, fault_by};
ghost use Rattle.connections.specs.Traffic.{Received};

use crate::gateway::{Event, KeepsEvents, Out, TakeFault, TakesEvents};
use devices::{Failed, Feed, Outlet, Stop, Taker, pump, write_all};
use line_protocol::ReplyLine;

/// The reason why a run ended before its reader did.
#[derive(Clone, Copy, PartialEq, Eq, Debug)]
pub enum RunFault {
    /// The connection is open already, or no connection has this number.
    NotFree,
    /// A read failed.
    Read,
    /// A write failed.
    Write,
    /// The gateway can't keep what was read.
    Unkept,
    /// The reader was read 2^32 times without an end.
    TooManyReads,
}

/// Opens connection `c`, delivers to it the bytes that are read, and writes the replies. Each reply
/// is written before the next line is decided (`runs`). The call closes the connection at the
/// reader's end or at a fault. The documents stay open in the gateway. If the gateway can't keep
/// bytes, their lines have no reply. A gateway that keeps all bytes never causes `Unkept`
/// (`keeps`).
///
/// The reader is read to its end, or up to the fault (`reads`). One write failed if the fault is
/// `Write`, and otherwise none (`write_failures`).
///
/// # Errors
///
/// `NotFree` exactly if the gateway refuses to open the connection (`not_free`): then nothing was
/// read or written (`untouched`). The other faults end the run early.
pub fn run<G: KeepsEvents, R: Feed, W: Outlet>(
    gateway: &mut G,
    c: u8,
    reader: &mut R,
    writer: &mut W,
) -> Result<(), RunFault>
    ensures not_free { (result ≡ Err RunFault.NotFree) ↔ IsSome (gate_fault (G.traffic gateway.old).lines (Opening c)) }
    ensures untouched { result ≡ Err RunFault.NotFree → (reader.new ≡ reader.old) × (writer.new ≡ writer.old) }
    ensures runs { RunGives result c (G.traffic gateway.old) (G.traffic gateway.new) (R.seen reader.old) (R.seen reader.new)
        (W.took writer.old).written (W.took writer.new).written }
    ensures reads { ReadUp (run_ended result) (R.seen reader.old) (R.seen reader.new) }
    ensures write_failures { (W.took writer.new).failures ≡ (W.took writer.old).failures + write_failures_of result }
    ensures keeps { G.keeps_all → result ≢ Err RunFault.Unkept }
{
    open(gateway, c)?;
    let result = pump(reader, &mut Connection { c }, gateway, writer);
    close(gateway, c);
    match result {
        Ok(()) => Ok(()),
        Err(stop) => Err(fault_of(stop)),
    }
}

/// The fault of a run that stopped for this reason.
fn fault_of(stop: Stop<Halt>) -> RunFault
    ensures { result ≡ fault_by stop }
{
    match stop {
        Stop::Read => RunFault::Read,
        Stop::TooManyReads => RunFault::TooManyReads,
        Stop::Taker(Halt::Unkept) => RunFault::Unkept,
        Stop::Taker(Halt::Unwritten) => RunFault::Write,
    }
}

/// Opens a connection.
fn open<G: KeepsEvents>(gateway: &mut G, c: u8) -> Result<(), RunFault>
    ensures fault { result ≡ Err RunFault.NotFree ↔ IsSome (gate_fault (G.traffic gateway.old).lines (Opening c)) }
    ensures only { IfErr result (λ e. e ≡ RunFault.NotFree) }
    ensures refused { OnErr result (G.traffic gateway.new ≡ G.traffic gateway.old) }
    ensures number { OnOk result (c < length (G.traffic gateway.old).lines) }
    ensures opened { OnOk result (G.traffic gateway.new ≡ with_line (G.traffic gateway.old) c (Some (Received []))) }
    ensures is_open { OnOk result (IsOpen (G.traffic gateway.new) c) }
{
    match gateway.event(Event::Open(c)) {
        Ok(_) => Ok(()),
        Err(TakeFault::Refused(_)) => Err(RunFault::NotFree),
        Err(TakeFault::Unkept) => unreachable!(),
    }
}

/// Closes a connection that is open.
fn close<G: KeepsEvents>(gateway: &mut G, c: u8)
    requires { IsOpen (G.traffic gateway.old) c }
    ensures number { c < length (G.traffic gateway.old).lines }
    ensures closed { G.traffic gateway.new ≡ with_line (G.traffic gateway.old) c None }
{
    match gateway.event(Event::Close(c)) {
        Ok(_) => {}
        Err(TakeFault::Refused(_)) => unreachable!(),
        Err(TakeFault::Unkept) => unreachable!(),
    }
}

/// The reason why a connection takes no more bytes.
enum Halt {
    /// The gateway can't keep the bytes.
    Unkept,
    /// The write of a reply failed.
    Unwritten,
}

/// A connection that is open. The bytes that are read are delivered to it line by line. The reply
/// to a line is written before the next one is decided.
#[derive(Drop)]
struct Connection {
    c: u8,
}

impl<G: KeepsEvents, W: Outlet> Taker<G, W> for Connection {
    ghost use Rattle.std.specs.Prelude.{◌≡◌};
    ghost use Rattle.devices.specs.Reading.{most_bytes};
    ghost use Rattle.connections.specs.Delivery.{IsOpen, Delivered, Halts};

    type Fault = Halt;

    ghost ready = { λ s. IsOpen (G.traffic s.1) s.0.c };

    ghost room = { λ s. most_bytes };

    ghost takes = { λ bytes s t. (t.0.c ≡ s.0.c) × Delivered s.0.c bytes (G.traffic s.1) (G.traffic t.1) (W.took s.2) (W.took t.2) };

    ghost stops = { λ halt bytes s t. Halts G.keeps_all halt s.0.c bytes (G.traffic s.1) (G.traffic t.1) (W.took s.2) (W.took t.2) };

    fn take(&mut self, gateway: &mut G, writer: &mut W, bytes: &[u8]) -> Result<usize, Halt> {
        let Out { taken, reply } = match gateway.event(Event::Bytes(self.c, bytes)) {
            Ok(out) => out,
            Err(TakeFault::Refused(_)) => unreachable!(),
            Err(TakeFault::Unkept) => return Err(Halt::Unkept),
        };
        match write_reply(writer, reply) {
            Ok(()) => Ok(taken),
            Err(Failed) => Err(Halt::Unwritten),
        }
    }
}

/// Takes the bytes up to and including the first line feed, and none after it. The effect is that
/// of the event `Bytes` (`step`). The caller writes the reply before it calls again for the next
/// line. The crates above use it, since they write replies of their own. The gateway has 16
/// connections (`count`).
pub fn bring<G: TakesEvents>(gateway: &mut G, c: u8, bytes: &[u8]) -> Out
    requires { IsOpen (G.traffic gateway.old) c }
    ensures step { Happens (G.traffic gateway.old) (Bringing c bytes.now) result.taken result.reply (G.traffic gateway.new) }
    ensures count { length (G.traffic gateway.old).lines ≡ connections }
{
    match gateway.event(Event::Bytes(c, bytes)) {
        Ok(out) => out,
        Err(_) => unreachable!(),
    }
}

/// Writes the reply, if there is one.
fn write_reply<W: Outlet>(writer: &mut W, reply: Option<ReplyLine>) -> Result<(), Failed>
    ensures writes { WritesReply result reply (W.took writer.old).written (W.took writer.new).written }
    ensures failures { (W.took writer.new).failures ≡ failures_after result (W.took writer.old).failures }
{
    match &reply {
        Some(reply) => write_all(writer, reply.bytes()),
        None => Ok(()),
    }
}
