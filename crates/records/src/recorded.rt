//! A gateway whose events are recorded.
ghost use Rattle.std.specs.Prelude.{◌≡◌, ◌∷◌, [], ℕ, None, IfOk, OnErr, IsSome, length, replicate};
ghost use Rattle.std.specs.Option.{is_none, is_some};
ghost use Rattle.connections.specs.Events.{connections, happening, Opening, Bringing, Closing, gate_fault, Happens, TakeFaultIs, line_at};
ghost use Rattle.records.specs.Losses.{IsKept, IsLeft, IsWritten, closings, seen_as};
ghost use Rattle.records.specs.Records.{recorded_as};

use crate::loss::Loss;
use crate::record::{EventFault, Record};
use connections::{CONNECTIONS, Event, Gateway, KeepsEvents, Out, TakeFault};
use devices::Outlet;

/// The most bytes of an event that is recorded.
const MOST_BROUGHT: usize = 4096;

/// A gateway that records its events. Bytes that can't be recorded count as not taken, and after
/// that no bytes are taken. So everything answered is in the record. Connections that open and
/// close after that aren't recorded.
#[derive(Drop)]
pub struct Recorded<'i, J> {
    gateway: Gateway<'i>,
    lost: Option<Loss<'i>>,
    /// The record of its events.
    pub record: Record<J>,
    ghost one: { length gateway.lines ≡ connections },
    ghost other: { length (seen_as lost gateway).lines ≡ connections },
    ghost in_step: { (c : ℕ) → is_some (line_at gateway c) ≡ is_some (line_at (seen_as lost gateway) c) },
}

impl<'i, J: Outlet> Recorded<'i, J> {
    /// Creates a recording gateway over `gateway` (`traffic`). Its events are recorded in `onto`
    /// (`device`), and none was lost yet (`whole`).
    pub fn new(gateway: Gateway<'i>, onto: Record<J>) -> Recorded<'i, J>
        ensures traffic { result.gateway ≡ gateway.entry }
        ensures whole { result.lost ≡ None }
        ensures device { result.record ≡ onto }
    {
        // The call tells contracts how many connections there are.
        let _ = gateway.count();
        Recorded {
            gateway,
            lost: None,
            record: onto,
        }
    }

    /// Whether everything that happened is recorded.
    pub fn is_whole(&self) -> bool
        ensures { result ≡ is_none self.now.lost }
    {
        self.lost.is_none()
    }

    /// Closes each open connection (`lines`), and nothing else (`office`). If everything is
    /// recorded, these closes are written, in the order of the numbers (`written`). If something
    /// was lost before, nothing is written (`lost`).
    pub fn close_all(&mut self)
        ensures lines { (seen_as self.new.lost self.new.gateway).lines ≡ replicate connections None }
        ensures office { (seen_as self.new.lost self.new.gateway).office ≡ (seen_as self.old.lost self.old.gateway).office }
        ensures written { IsWritten self.new.lost (closings connections (seen_as self.old.lost self.old.gateway))
            (J.took self.old.record.device).written (J.took self.new.record.device).written }
        ensures lost { IsSome self.old.lost → IsSome self.new.lost × (J.took self.new.record.device ≡ J.took self.old.record.device) }
    {
        for c in 0..CONNECTIONS as u8 {
            let _ = self.close(c);
        }
    }

    /// Takes one event, like `Gateway::event` (`step`). If no event was lost, what it did is
    /// recorded (`recorded`). A reply is returned only if everything is recorded (`answered`).
    /// After a loss, nothing more is written (`lost`). The gateway has 16 connections (`count`).
    ///
    /// # Errors
    ///
    /// `Refused` if the gateway refuses the event; only bytes can be `Unkept` (`fault`). The event
    /// then changes nothing that callers see (`refused`). `Unkept` means that an event was lost
    /// before, that this is the first one lost, or that it has no bytes or more than 4,096
    /// (`left`).
    pub fn event(&mut self, event: Event<'_>) -> Result<Out, TakeFault>
        ensures fault { TakeFaultIs result (happening event.entry) (gate_fault (seen_as self.old.lost self.old.gateway).lines (happening event.entry)) }
        ensures refused { OnErr result (seen_as self.new.lost self.new.gateway ≡ seen_as self.old.lost self.old.gateway) }
        ensures step { IfOk result (λ out. Happens (seen_as self.old.lost self.old.gateway) (happening event.entry) out.taken out.reply
            (seen_as self.new.lost self.new.gateway)) }
        ensures answered { IfOk result (λ out. IsSome out.reply → self.new.lost ≡ None) }
        ensures recorded { IfOk result (λ out. IsKept self.new.lost (recorded_as (happening event.entry) out.taken out.reply)
            (seen_as self.old.lost self.old.gateway) (seen_as self.new.lost self.new.gateway) (J.took self.old.record.device).written
            (J.took self.new.record.device).written) }
        ensures left { IsLeft result (happening event.entry) (seen_as self.old.lost self.old.gateway) self.old.lost self.new.lost
            (J.took self.old.record.device).written (J.took self.new.record.device).written }
        ensures lost { IsSome self.old.lost → IsSome self.new.lost × (J.took self.new.record.device ≡ J.took self.old.record.device) }
        ensures count { length (seen_as self.old.lost self.old.gateway).lines ≡ connections }
    {
        match event {
            Event::Open(c) => self.open(c),
            Event::Bytes(c, bytes) => self.bring(c, bytes),
            Event::Close(c) => self.close(c),
        }
    }

    /// Opens a connection.
    fn open(&mut self, c: u8) -> Result<Out, TakeFault>
        ensures fault { TakeFaultIs result (Opening c) (gate_fault (seen_as self.old.lost self.old.gateway).lines (Opening c)) }
        ensures refused { OnErr result (seen_as self.new.lost self.new.gateway ≡ seen_as self.old.lost self.old.gateway) }
        ensures step { IfOk result (λ out. Happens (seen_as self.old.lost self.old.gateway) (Opening c) out.taken out.reply
            (seen_as self.new.lost self.new.gateway)) }
        ensures recorded { IfOk result (λ out. IsKept self.new.lost (Opening c ∷ [])
            (seen_as self.old.lost self.old.gateway) (seen_as self.new.lost self.new.gateway) (J.took self.old.record.device).written
            (J.took self.new.record.device).written) }
        ensures left { IsLeft result (Opening c) (seen_as self.old.lost self.old.gateway) self.old.lost self.new.lost
            (J.took self.old.record.device).written (J.took self.new.record.device).written }
        ensures lost { IsSome self.old.lost → IsSome self.new.lost × (J.took self.new.record.device ≡ J.took self.old.record.device) }
    {
        match self.lost.take() {
            Some(mut loss) => match self.gateway.event(Event::Open(c)) {
                Ok(out) => {
                    loss.turn(true, c);
                    self.lost = Some(loss);
                    Ok(out)
                }
                Err(fault) => {
                    self.lost = Some(loss);
                    Err(TakeFault::Refused(fault))
                }
            },
            None => {
                let mut loss = Loss::of(&self.gateway);
                match self.record.event(&mut self.gateway, Event::Open(c)) {
                    Ok(out) => Ok(out),
                    Err(EventFault::Refused(fault)) => Err(TakeFault::Refused(fault)),
                    Err(EventFault::Unrecorded | EventFault::OutOfMemory) => {
                        loss.turn(true, c);
                        self.lost = Some(loss);
                        Ok(Out {
                            taken: 0,
                            reply: None,
                        })
                    }
                }
            }
        }
    }

    /// Closes a connection.
    fn close(&mut self, c: u8) -> Result<Out, TakeFault>
        ensures fault { TakeFaultIs result (Closing c) (gate_fault (seen_as self.old.lost self.old.gateway).lines (Closing c)) }
        ensures refused { OnErr result (seen_as self.new.lost self.new.gateway ≡ seen_as self.old.lost self.old.gateway) }
        ensures step { IfOk result (λ out. Happens (seen_as self.old.lost self.old.gateway) (Closing c) out.taken out.reply
            (seen_as self.new.lost self.new.gateway)) }
        ensures recorded { IfOk result (λ out. IsKept self.new.lost (Closing c ∷ [])
            (seen_as self.old.lost self.old.gateway) (seen_as self.new.lost self.new.gateway) (J.took self.old.record.device).written
            (J.took self.new.record.device).written) }
        ensures left { IsLeft result (Closing c) (seen_as self.old.lost self.old.gateway) self.old.lost self.new.lost
            (J.took self.old.record.device).written (J.took self.new.record.device).written }
        ensures lost { IsSome self.old.lost → IsSome self.new.lost × (J.took self.new.record.device ≡ J.took self.old.record.device) }
    {
        match self.lost.take() {
            Some(mut loss) => match self.gateway.event(Event::Close(c)) {
                Ok(out) => {
                    loss.turn(false, c);
                    self.lost = Some(loss);
                    Ok(out)
                }
                Err(fault) => {
                    self.lost = Some(loss);
                    Err(TakeFault::Refused(fault))
                }
            },
            None => {
                let mut loss = Loss::of(&self.gateway);
                match self.record.event(&mut self.gateway, Event::Close(c)) {
                    Ok(out) => Ok(out),
                    Err(EventFault::Refused(fault)) => Err(TakeFault::Refused(fault)),
                    Err(EventFault::Unrecorded | EventFault::OutOfMemory) => {
                        loss.turn(false, c);
                        self.lost = Some(loss);
                        Ok(Out {
                            taken: 0,
                            reply: None,
                        })
                    }
                }
            }
        }
    }

    /// Takes bytes of a connection.
    fn bring(&mut self, c: u8, bytes: &[u8]) -> Result<Out, TakeFault>
        ensures fault { TakeFaultIs result (Bringing c bytes.now) (gate_fault (seen_as self.old.lost self.old.gateway).lines (Bringing c bytes.now)) }
        ensures refused { OnErr result (seen_as self.new.lost self.new.gateway ≡ seen_as self.old.lost self.old.gateway) }
        ensures step { IfOk result (λ out. Happens (seen_as self.old.lost self.old.gateway) (Bringing c bytes.now) out.taken out.reply
            (seen_as self.new.lost self.new.gateway)) }
        ensures answered { IfOk result (λ out. self.new.lost ≡ None) }
        ensures recorded { IfOk result (λ out. IsKept self.new.lost (recorded_as (Bringing c bytes.now) out.taken out.reply)
            (seen_as self.old.lost self.old.gateway) (seen_as self.new.lost self.new.gateway) (J.took self.old.record.device).written
            (J.took self.new.record.device).written) }
        ensures left { IsLeft result (Bringing c bytes.now) (seen_as self.old.lost self.old.gateway) self.old.lost self.new.lost
            (J.took self.old.record.device).written (J.took self.new.record.device).written }
        ensures lost { IsSome self.old.lost → IsSome self.new.lost × (J.took self.new.record.device ≡ J.took self.old.record.device) }
    {
        if self.lost.is_some() || bytes.is_empty() || bytes.len() > MOST_BROUGHT {
            return Err(TakeFault::Unkept);
        }
        let loss = Loss::of(&self.gateway);
        match self.record.event(&mut self.gateway, Event::Bytes(c, bytes)) {
            Ok(out) => Ok(out),
            Err(EventFault::Refused(fault)) => Err(TakeFault::Refused(fault)),
            // An arm for each: from a joint arm, the prover doesn't know which faults it is for.
            Err(EventFault::Unrecorded) => {
                self.lost = Some(loss);
                Err(TakeFault::Unkept)
            }
            Err(EventFault::OutOfMemory) => {
                self.lost = Some(loss);
                Err(TakeFault::Unkept)
            }
        }
    }
}

impl<J: Outlet> KeepsEvents for Recorded<'_, J> {
    ghost traffic = { λ recorded. seen_as recorded.lost recorded.gateway };

    fn event(&mut self, event: Event<'_>) -> Result<Out, TakeFault> {
        Recorded::event(self, event)
    }
}
