//! A record of the events of a gateway.
ghost use Rattle.std.specs.Prelude.{◌≡◌, ◌+◌, ◌∷◌, [], IfOk, if◌then◌else◌, string_bytes};
ghost use Rattle.connections.specs.Clients.{BegunLines, StandFor};
ghost use Rattle.connections.specs.Events.{Happening, Opening, Bringing, Closing, gate_fault, happening};
ghost use Rattle.records.specs.Lines.{record_of};
ghost use Rattle.records.specs.Records.{FaultIs, IsRecord, IsShort, Records, Writes, record_failures, recorded_as, reports_memory};

use crate::laws::law_records;
use crate::line::{put_line, put_lines};
use connections::{Event, GateFault, Gateway, Out, law_events};
use devices::{Failed, Outlet, write_all};
use line_protocol::ReplyLine;
use std::alloc::{AllocError, Global};

/// The reason why an event returns no reply.
#[derive(Clone, Copy, PartialEq, Eq, Debug)]
pub enum EventFault {
    /// The gateway refuses it.
    Refused(GateFault),
    /// It happened, but the device failed, and hasn't taken all of its lines.
    Unrecorded,
    /// It happened, but memory ran out for its lines, and nothing was written.
    OutOfMemory,
}

/// A record of a gateway's events on a device. Each event is a line in the form of a trace.
#[derive(Drop)]
pub struct Record<J> {
    /// The device to which the lines are written.
    pub device: J,
    line: String,
}

impl<J: Outlet> Record<J> {
    /// Creates a record on this device.
    pub fn new(alloc: Global, device: J) -> Record<J>
        ensures { result.device ≡ device }
    {
        Record {
            device,
            line: String::new(alloc),
        }
    }

    /// Performs an event on a gateway, and writes its line before returning the reply (`records`).
    /// An event of bytes has 1 to 4,096 bytes. An event that is refused isn't recorded. For an
    /// event of bytes, the bytes that it took are recorded. If memory ran out for a line, the close
    /// and the opening of its connection are recorded instead. The lines written are a record of
    /// what happened (`record`).
    ///
    /// # Errors
    ///
    /// `Refused` if the gateway refuses the event (`fault`), `Unrecorded` or `OutOfMemory`. One
    /// write failed if the fault is `Unrecorded`, and otherwise none (`failures`).
    pub fn event(&mut self, gateway: &mut Gateway<'_>, event: Event<'_>) -> Result<Out, EventFault>
        requires { IsShort (happening event) }
        ensures fault { FaultIs result (gate_fault gateway.old.lines (happening event.entry)) }
        ensures records { Records result (happening event.entry) gateway.old gateway.new (J.took self.old.device).written (J.took self.new.device).written }
        ensures failures { (J.took self.new.device).failures ≡ (J.took self.old.device).failures + record_failures result }
        ensures record { IfOk result (λ out. (begun : BegunLines) → StandFor gateway.old begun
            → IsRecord gateway.old (record_of (recorded_as (happening event.entry) out.taken out.reply)) gateway.new) }
    {
        match event {
            Event::Open(c) => self.open(gateway, c),
            Event::Bytes(c, bytes) => self.bring(gateway, c, bytes),
            Event::Close(c) => self.close(gateway, c),
        }
    }

    fn open(&mut self, gateway: &mut Gateway<'_>, c: u8) -> Result<Out, EventFault>
        ensures fault { FaultIs result (gate_fault gateway.old.lines (Opening c)) }
        ensures records { Records result (Opening c) gateway.old gateway.new (J.took self.old.device).written (J.took self.new.device).written }
        ensures failures { (J.took self.new.device).failures ≡ (J.took self.old.device).failures + record_failures result }
        ensures record { IfOk result (λ out. (begun : BegunLines) → StandFor gateway.old begun
            → IsRecord gateway.old (record_of (Opening c ∷ [])) gateway.new) }
    {
        law_records();
        match gateway.event(Event::Open(c)) {
            Ok(out) => match self.put(Event::Open(c)) {
                Ok(()) => Ok(out),
                Err(fault) => Err(fault),
            },
            Err(fault) => Err(EventFault::Refused(fault)),
        }
    }

    fn close(&mut self, gateway: &mut Gateway<'_>, c: u8) -> Result<Out, EventFault>
        ensures fault { FaultIs result (gate_fault gateway.old.lines (Closing c)) }
        ensures records { Records result (Closing c) gateway.old gateway.new (J.took self.old.device).written (J.took self.new.device).written }
        ensures failures { (J.took self.new.device).failures ≡ (J.took self.old.device).failures + record_failures result }
        ensures record { IfOk result (λ out. (begun : BegunLines) → StandFor gateway.old begun
            → IsRecord gateway.old (record_of (Closing c ∷ [])) gateway.new) }
    {
        law_records();
        match gateway.event(Event::Close(c)) {
            Ok(out) => match self.put(Event::Close(c)) {
                Ok(()) => Ok(out),
                Err(fault) => Err(fault),
            },
            Err(fault) => Err(EventFault::Refused(fault)),
        }
    }

    fn bring(&mut self, gateway: &mut Gateway<'_>, c: u8, bytes: &[u8]) -> Result<Out, EventFault>
        requires { IsShort (Bringing c bytes.now) }
        ensures fault { FaultIs result (gate_fault gateway.old.lines (Bringing c bytes.now)) }
        ensures records { Records result (Bringing c bytes.now) gateway.old gateway.new (J.took self.old.device).written (J.took self.new.device).written }
        ensures failures { (J.took self.new.device).failures ≡ (J.took self.old.device).failures + record_failures result }
        ensures record { IfOk result (λ out. (begun : BegunLines) → StandFor gateway.old begun
            → IsRecord gateway.old (record_of (recorded_as (Bringing c bytes.now) out.taken out.reply)) gateway.new) }
    {
        law_records();
        law_events();
        match gateway.event(Event::Bytes(c, bytes)) {
            Ok(out) => match self.put_brought(c, &bytes[..out.taken], &out.reply) {
                Ok(()) => Ok(out),
                Err(fault) => Err(fault),
            },
            Err(fault) => Err(EventFault::Refused(fault)),
        }
    }

    /// Writes the line of bytes that were taken. If memory ran out, it writes a close and an
    /// opening.
    fn put_brought(
        &mut self,
        c: u8,
        bytes: &[u8],
        reply: &Option<ReplyLine>,
    ) -> Result<(), EventFault>
        ensures writes { Writes result (record_of (if reports_memory reply.now then Closing c ∷ Opening c ∷ [] else Bringing c bytes.now ∷ []))
            (J.took self.old.device).written (J.took self.new.device).written }
        ensures failures { (J.took self.new.device).failures ≡ (J.took self.old.device).failures + record_failures result }
    {
        if reports_memory(reply) {
            self.put_both(Event::Close(c), Event::Open(c))
        } else {
            self.put(Event::Bytes(c, bytes))
        }
    }

    /// Writes the line of an event.
    fn put(&mut self, event: Event<'_>) -> Result<(), EventFault>
        ensures writes { Writes result (record_of (happening event.entry ∷ [])) (J.took self.old.device).written (J.took self.new.device).written }
        ensures failures { (J.took self.new.device).failures ≡ (J.took self.old.device).failures + record_failures result }
    {
        self.line.clear();
        match put_line(&mut self.line, event) {
            Ok(()) => self.write(),
            Err(AllocError) => Err(EventFault::OutOfMemory),
        }
    }

    /// Writes the lines of two events, by one write if the device takes both.
    fn put_both(&mut self, first: Event<'_>, second: Event<'_>) -> Result<(), EventFault>
        ensures writes { Writes result (record_of (happening first.entry ∷ happening second.entry ∷ [])) (J.took self.old.device).written
            (J.took self.new.device).written }
        ensures failures { (J.took self.new.device).failures ≡ (J.took self.old.device).failures + record_failures result }
    {
        self.line.clear();
        match put_lines(&mut self.line, first, second) {
            Ok(()) => self.write(),
            Err(AllocError) => Err(EventFault::OutOfMemory),
        }
    }

    /// Writes the composed lines.
    fn write(&mut self) -> Result<(), EventFault>
        ensures writes { Writes result (string_bytes self.old.line) (J.took self.old.device).written (J.took self.new.device).written }
        ensures failures { (J.took self.new.device).failures ≡ (J.took self.old.device).failures + record_failures result }
    {
        match write_all(&mut self.device, self.line.as_bytes()) {
            Ok(()) => Ok(()),
            Err(Failed) => Err(EventFault::Unrecorded),
        }
    }
}

/// Whether a reply reports that memory ran out.
fn reports_memory(reply: &Option<ReplyLine>) -> bool
    ensures { result ≡ reports_memory reply.now }
{
    match reply {
        Some(reply) => reply.bytes() == ReplyLine::out_of_memory().bytes(),
        None => false,
    }
}
