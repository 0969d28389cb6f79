//! One event of a trace, played on a gateway, with what it prints.
ghost use Rattle.std.specs.Prelude.{◌≡◌};
ghost use Rattle.devices.specs.Devices.{failures_after};
ghost use Rattle.connections.specs.Events.{happening, Opening, Bringing, Closing};
ghost use Rattle.connections.specs.Delivery.{IsOpen};
ghost use Rattle.gateway.specs.Tracing.{Plays, PlaysRest};

use crate::traces::print::{print_refusal, print_reply};
use connections::{Event, Out, TakesEvents, bring, law_events, law_events_go_on, law_lines};
use devices::{Failed, Outlet};

/// Plays one event, and prints its replies or its refusal.
pub(super) fn play<G: TakesEvents, W: Outlet>(
    gateway: &mut G,
    event: Event<'_>,
    writer: &mut W,
) -> Result<(), Failed>
    ensures plays { Plays result (happening event.entry) (G.traffic gateway.old) (G.traffic gateway.new) (W.took writer.old).written
        (W.took writer.new).written }
    ensures failures { (W.took writer.new).failures ≡ failures_after result (W.took writer.old).failures }
{
    match event {
        Event::Open(c) => play_open(gateway, c, writer),
        Event::Bytes(c, bytes) => play_bytes(gateway, c, bytes, writer),
        Event::Close(c) => play_close(gateway, c, writer),
    }
}

fn play_open<G: TakesEvents, W: Outlet>(
    gateway: &mut G,
    c: u8,
    writer: &mut W,
) -> Result<(), Failed>
    ensures plays { Plays result (Opening c) (G.traffic gateway.old) (G.traffic gateway.new) (W.took writer.old).written (W.took writer.new).written }
    ensures failures { (W.took writer.new).failures ≡ failures_after result (W.took writer.old).failures }
{
    match gateway.event(Event::Open(c)) {
        Ok(_) => {}
        Err(fault) => return print_refusal(writer, c, fault),
    }
    Ok(())
}

fn play_close<G: TakesEvents, W: Outlet>(
    gateway: &mut G,
    c: u8,
    writer: &mut W,
) -> Result<(), Failed>
    ensures plays { Plays result (Closing c) (G.traffic gateway.old) (G.traffic gateway.new) (W.took writer.old).written (W.took writer.new).written }
    ensures failures { (W.took writer.new).failures ≡ failures_after result (W.took writer.old).failures }
{
    match gateway.event(Event::Close(c)) {
        Ok(_) => {}
        Err(fault) => return print_refusal(writer, c, fault),
    }
    Ok(())
}

/// Plays an event of bytes. A refusal is printed once, however many line feeds the bytes have.
fn play_bytes<G: TakesEvents, W: Outlet>(
    gateway: &mut G,
    c: u8,
    bytes: &[u8],
    writer: &mut W,
) -> Result<(), Failed>
    ensures plays { Plays result (Bringing c bytes.now) (G.traffic gateway.old) (G.traffic gateway.new) (W.took writer.old).written
        (W.took writer.new).written }
    ensures failures { (W.took writer.new).failures ≡ failures_after result (W.took writer.old).failures }
{
    law_lines();
    law_events();
    let Out { taken, reply } = match gateway.event(Event::Bytes(c, bytes)) {
        Ok(out) => out,
        Err(fault) => return print_refusal(writer, c, fault),
    };
    match print_reply(writer, c, reply) {
        Ok(()) => play_rest(gateway, c, &bytes[taken..], writer),
        Err(Failed) => Err(Failed),
    }
}

/// Plays the bytes after the first line feed.
fn play_rest<G: TakesEvents, W: Outlet>(
    gateway: &mut G,
    c: u8,
    bytes: &[u8],
    writer: &mut W,
) -> Result<(), Failed>
    requires { IsOpen (G.traffic gateway.old) c }
    ensures plays { PlaysRest result c bytes.now (G.traffic gateway.old) (G.traffic gateway.new) (W.took writer.old).written (W.took writer.new).written }
    ensures failures { (W.took writer.new).failures ≡ failures_after result (W.took writer.old).failures }
{
    law_lines();
    law_events();
    law_events_go_on();
    let mut rest = bytes;
    while !rest.is_empty() {
        let Out { taken, reply } = bring(gateway, c, rest);
        match print_reply(writer, c, reply) {
            Ok(()) => rest = &rest[taken..],
            Err(Failed) => return Err(Failed),
        }
    }
    Ok(())
}
