//! The gateway: one event at a time, on numbered connections.
ghost use Rattle.std.specs.Prelude.{◌≡◌, ◌≤◌, ◌<◌, ℕ, List, None, Some, length, replicate, MatchResult, IfOk, OnErr};
ghost use Rattle.desk.specs.{Desk.Adopts, Documents.max_number};
ghost use Rattle.line_protocol.specs.Step.{Replies};
ghost use Rattle.connections.specs.Traffic.{Stands, known_of};

use crate::connection::{BegunLine, CONNECTIONS, Connections, Line};
use desk::{Desk, Fault};
use enc_names::Setting;
use line_protocol::{ReplyLine, reply_to, reply_to_dropped};
use std::alloc::Global;
use std::marker::Model;

/// An event on a connection. The connection is named by its number, from 0 to `CONNECTIONS` - 1.
#[derive(Clone, Copy)]
pub enum Event<'a> {
    /// The connection opens, with an empty line.
    Open(u8),
    /// Bytes were received. An event takes them up to and including the first line feed; the caller
    /// continues with the rest.
    Bytes(u8, &'a [u8]),
    /// The connection closes, and its partial line is dropped.
    Close(u8),
}

/// The reason why an event is refused. The causes are checked in this order.
#[derive(Clone, Copy, PartialEq, Eq, Debug)]
pub enum GateFault {
    /// No connection has this number.
    BadNumber,
    /// The connection to open is open already.
    AlreadyOpen,
    /// The connection is not open.
    NotOpen,
}

/// The result of an event.
#[derive(Drop)]
pub struct Out {
    /// The number of bytes that the event took; 0 if it brought none.
    pub taken: usize,
    /// The reply to the line that the event completed.
    pub reply: Option<ReplyLine>,
}

impl Out {
    /// Returns that no byte was taken and nothing is answered.
    fn nothing() -> Out
        ensures taken { result.taken ≡ 0 }
        ensures reply { result.reply ≡ None }
    {
        Out {
            taken: 0,
            reply: None,
        }
    }
}

/// A handler of connection events like `Gateway`. `bring` accepts every such handler, so that one
/// can do more at an event, for example record it.
pub trait TakesEvents {
    ghost use Rattle.std.specs.Prelude.{◌≡◌, None, Some, length, MatchResult, IfOk, OnErr};
    ghost use Rattle.connections.specs.Events.{connections, happening, gate_fault, Happens};
    ghost use Rattle.connections.specs.Traffic.{Traffic};

    /// The desk, and the partial line of each open connection.
    ghost traffic: { Self → Traffic };

    /// Takes one event, like `Gateway::event`. The event takes its bytes and has its reply as the
    /// gateway defines them (`step`). It is refused for the same reasons as by a gateway (`fault`),
    /// and then changes nothing (`refused`). The handler has 16 connections (`count`).
    fn event(&mut self, event: Event<'_>) -> Result<Out, GateFault>
        ensures fault { MatchResult result (λ out. gate_fault (traffic self.old).lines (happening event.entry) ≡ None)
            (λ fault. gate_fault (traffic self.old).lines (happening event.entry) ≡ Some fault) }
        ensures refused { OnErr result (traffic self.new ≡ traffic self.old) }
        ensures step { IfOk result (λ out. Happens (traffic self.old) (happening event.entry) out.taken out.reply (traffic self.new)) }
        ensures count { length (traffic self.old).lines ≡ connections };
}

impl TakesEvents for Gateway<'_> {
    ghost traffic = { λ gateway. gateway };

    fn event(&mut self, event: Event<'_>) -> Result<Out, GateFault> {
        Gateway::event(self, event)
    }
}

/// The reason why an event was not taken.
#[derive(Clone, Copy, PartialEq, Eq, Debug)]
pub enum TakeFault {
    /// The gateway refuses the event.
    Refused(GateFault),
    /// The bytes can't be kept, and so they aren't taken.
    Unkept,
}

/// A handler of connection events like `Gateway` that may persist them, as `Recorded` does. Bytes
/// that can't be kept aren't taken, so no reply to them is sent. `Open` and `Close` have no reply
/// and are never `Unkept`.
pub trait KeepsEvents {
    ghost use Rattle.std.specs.Prelude.{◌≡◌, ◌≢◌, Err, length, IfOk, OnErr};
    ghost use Rattle.connections.specs.Events.{connections, happening, gate_fault, Happens, TakeFaultIs};
    ghost use Rattle.connections.specs.Traffic.{Traffic};

    /// The desk, and the partial line of each open connection.
    ghost traffic: { Self → Traffic };

    /// Whether the handler keeps all bytes that it receives, so that none are `Unkept`.
    ghost keeps_all: { Type 0 } = { ⊥ };

    /// Takes one event, like `Gateway::event`. The event takes its bytes and has its reply as the
    /// gateway defines them (`step`). It is refused for the same reasons as by a gateway; only
    /// bytes can be `Unkept` (`fault`). In both cases the event changes nothing (`refused`). A
    /// handler that keeps all bytes never returns `Unkept` (`kept`). It has 16 connections
    /// (`count`).
    fn event(&mut self, event: Event<'_>) -> Result<Out, TakeFault>
        ensures kept { keeps_all → result ≢ Err TakeFault.Unkept }
        ensures fault { TakeFaultIs result (happening event.entry) (gate_fault (traffic self.old).lines (happening event.entry)) }
        ensures refused { OnErr result (traffic self.new ≡ traffic self.old) }
        ensures step { IfOk result (λ out. Happens (traffic self.old) (happening event.entry) out.taken out.reply (traffic self.new)) }
        ensures count { length (traffic self.old).lines ≡ connections };
}

impl KeepsEvents for Gateway<'_> {
    ghost traffic = { λ gateway. gateway };

    ghost keeps_all = { Unit {0} };

    fn event(&mut self, event: Event<'_>) -> Result<Out, TakeFault> {
        match Gateway::event(self, event) {
            Ok(out) => Ok(out),
            Err(fault) => Err(TakeFault::Refused(fault)),
        }
    }
}

/// A desk, and the connections over which lines are received. Contracts see the desk and the
/// partial line of each open connection.
pub struct Gateway<'i> {
    desk: Desk<'i>,
    connections: Connections,
    alloc: Global,
}

impl<'i> Model for Gateway<'i> {
    ghost use Rattle.connections.specs.{Traffic.Traffic, Codes.traffic_code};

    ghost Value = { Traffic };

    ghost coded = { traffic_code };

    ghost view = { λ a. record { office = a.desk; lines = a.connections } };
}

// Written out: if it were derived, each crate above would prove again how every field is dropped.
impl Drop for Gateway<'_> {
    fn drop(self) {
        let Gateway {
            desk: _,
            connections: _,
            alloc: _,
        } = self;
    }
}

impl<'i> Gateway<'i> {
    ghost use Rattle.connections.specs.Events.{connections, happening, gate_fault, Happens, Opening, Bringing, Closing};

    /// Creates a gateway over this desk (`office`), with no connection open (`lines`).
    pub fn new(alloc: Global, desk: Desk<'i>) -> Gateway<'i>
        ensures office { result.office ≡ desk.entry }
        ensures lines { result.lines ≡ replicate connections None }
    {
        Gateway {
            desk,
            connections: Connections::new(),
            alloc,
        }
    }

    /// The number of connections, open or not (`number`). The gateway keeps one entry for each
    /// (`lines`).
    pub fn count(&self) -> usize
        ensures number { result ≡ connections }
        ensures lines { length self.now.lines ≡ connections }
    {
        let _ = self.connections.exists(0);
        CONNECTIONS
    }

    /// Its desk.
    pub fn desk(&self) -> &Desk<'i>
        ensures { result.now ≡ self.now.office }
    {
        &self.desk
    }

    /// Has the desk adopt a document, like `Desk::adopt` (`adopts`). The name has 1 to 64 bytes
    /// (`name`), and the revision is at most 2^53 - 1 (`revision`). The partial lines are unchanged
    /// (`lines`).
    ///
    /// # Errors
    ///
    /// The errors of `Desk::adopt`.
    pub fn adopt(
        &mut self,
        name: &str,
        setting: Setting,
        bytes: &[u8],
        revision: u64,
    ) -> Result<(), Fault>
        requires name { (1 ≤ length name.now) × (length name.now ≤ 64) }
        requires revision { revision ≤ max_number }
        ensures adopts { Adopts self.old.office name.now setting bytes.now revision result self.new.office }
        ensures lines { self.new.lines ≡ self.old.lines }
    {
        self.desk
            .adopt(name, setting.given, setting.bom, bytes, revision)
    }

    /// Takes one event, and returns the bytes that it took and its reply (`step`). An event that is
    /// refused changes nothing (`refused`). Running out of memory isn't a fault: a line whose bytes
    /// were dropped is answered at its line feed. The gateway has 16 connections (`count`).
    ///
    /// # Errors
    ///
    /// `BadNumber`, `AlreadyOpen` or `NotOpen` (`fault`).
    pub fn event(&mut self, event: Event<'_>) -> Result<Out, GateFault>
        ensures fault { MatchResult result (λ out. gate_fault self.old.lines (happening event.entry) ≡ None)
            (λ fault. gate_fault self.old.lines (happening event.entry) ≡ Some fault) }
        ensures refused { OnErr result (self.new ≡ self.old) }
        ensures step { IfOk result (λ out. Happens self.old (happening event.entry) out.taken out.reply self.new) }
        ensures count { length self.old.lines ≡ connections }
    {
        match event {
            Event::Open(c) => self.open(c),
            Event::Bytes(c, bytes) => self.take(c, bytes),
            Event::Close(c) => self.close(c),
        }
    }

    fn open(&mut self, c: u8) -> Result<Out, GateFault>
        ensures fault { MatchResult result (λ out. gate_fault self.old.lines (Opening c) ≡ None)
            (λ fault. gate_fault self.old.lines (Opening c) ≡ Some fault) }
        ensures refused { OnErr result (self.new ≡ self.old) }
        ensures step { IfOk result (λ out. Happens self.old (Opening c) out.taken out.reply self.new) }
        ensures count { length self.old.lines ≡ connections }
    {
        if !self.connections.exists(c) {
            return Err(GateFault::BadNumber);
        }
        if self.connections.is_open(c) {
            return Err(GateFault::AlreadyOpen);
        }
        self.connections.put(c, Some(BegunLine::new(self.alloc)));
        Ok(Out::nothing())
    }

    fn take(&mut self, c: u8, bytes: &[u8]) -> Result<Out, GateFault>
        ensures fault { MatchResult result (λ out. gate_fault self.old.lines (Bringing c bytes.now) ≡ None)
            (λ fault. gate_fault self.old.lines (Bringing c bytes.now) ≡ Some fault) }
        ensures refused { OnErr result (self.new ≡ self.old) }
        ensures step { IfOk result (λ out. Happens self.old (Bringing c bytes.now) out.taken out.reply self.new) }
        ensures count { length self.old.lines ≡ connections }
    {
        if !self.connections.exists(c) {
            return Err(GateFault::BadNumber);
        }
        let Some(mut begun) = self.connections.take(c) else {
            return Err(GateFault::NotOpen);
        };
        let (taken, line) = begun.take(bytes);
        self.connections.put(c, Some(begun));
        let Some(line) = line else {
            return Ok(Out { taken, reply: None });
        };
        let reply = reply_on(&mut self.desk, self.alloc, line);
        Ok(Out {
            taken,
            reply: Some(reply),
        })
    }

    fn close(&mut self, c: u8) -> Result<Out, GateFault>
        ensures fault { MatchResult result (λ out. gate_fault self.old.lines (Closing c) ≡ None)
            (λ fault. gate_fault self.old.lines (Closing c) ≡ Some fault) }
        ensures refused { OnErr result (self.new ≡ self.old) }
        ensures step { IfOk result (λ out. Happens self.old (Closing c) out.taken out.reply self.new) }
        ensures count { length self.old.lines ≡ connections }
    {
        if !self.connections.exists(c) {
            return Err(GateFault::BadNumber);
        }
        if !self.connections.is_open(c) {
            return Err(GateFault::NotOpen);
        }
        self.connections.put(c, None);
        Ok(Out::nothing())
    }
}

/// The reply to a complete line.
fn reply_on(desk: &mut Desk<'_>, alloc: Global, line: Line<'_>) -> ReplyLine
    ensures { (l : List ℕ) → Stands (known_of line.entry) l → Replies desk.old l result desk.new }
{
    match line {
        Line::Whole(bytes) => reply_to(desk, alloc, bytes),
        Line::Joined(bytes) => reply_to(desk, alloc, &bytes),
        Line::Dropped(count) => reply_to_dropped(count),
    }
}
