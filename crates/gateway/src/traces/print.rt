//! The printed lines of a trace.
ghost use Rattle.std.specs.Prelude.{◌≡◌, ◌≤◌, ◌++◌, ◌∷◌, [], length};
ghost use Rattle.std.specs.Fmt.{decimal};
ghost use Rattle.connections.specs.Clients.{sent_to};
ghost use Rattle.devices.specs.Devices.{failures_after};
ghost use Rattle.gateway.specs.Trace.{refusal_line, gate_fault_name, printed};
ghost use Rattle.gateway.specs.Tracing.{WritesAll, PrintsReply};

use connections::GateFault;
use devices::{Failed, Outlet, write_all};
use itoa::Buffer;
use line_protocol::{ReplyLine, ShortText};

/// Prints a reply, if there is one, after the number of its connection.
pub(super) fn print_reply<W: Outlet>(
    writer: &mut W,
    c: u8,
    reply: Option<ReplyLine>,
) -> Result<(), Failed>
    ensures prints { PrintsReply result (sent_to c reply) (W.took writer.old).written (W.took writer.new).written }
    ensures failures { (W.took writer.new).failures ≡ failures_after result (W.took writer.old).failures }
{
    match &reply {
        Some(reply) => print_line(writer, c, reply.bytes()),
        None => Ok(()),
    }
}

/// Prints a line after the number of its connection.
fn print_line<W: Outlet>(writer: &mut W, c: u8, line: &[u8]) -> Result<(), Failed>
    ensures writes { WritesAll result (printed (c, line.now)) (W.took writer.old).written (W.took writer.new).written }
    ensures failures { (W.took writer.new).failures ≡ failures_after result (W.took writer.old).failures }
{
    let number = spaced(c);
    match write_all(writer, number.as_slice()) {
        Ok(()) => write_all(writer, line),
        Err(Failed) => Err(Failed),
    }
}

/// Prints the reason why an event is refused.
pub(super) fn print_refusal<W: Outlet>(
    writer: &mut W,
    c: u8,
    fault: GateFault,
) -> Result<(), Failed>
    ensures writes { WritesAll result (refusal_line c fault) (W.took writer.old).written (W.took writer.new).written }
    ensures failures { (W.took writer.new).failures ≡ failures_after result (W.took writer.old).failures }
{
    let text = refusal(c, fault);
    write_all(writer, text.as_slice())
}

fn refusal(c: u8, fault: GateFault) -> ShortText
    ensures { result ≡ refusal_line c fault }
{
    let mut text = decimal_text(c);
    text.extend(b" !");
    text.extend(fault_name(fault).as_bytes());
    text.push(b'\n');
    text
}

fn spaced(c: u8) -> ShortText
    ensures { result ≡ decimal c ++ 32 ∷ [] }
{
    let mut text = decimal_text(c);
    text.push(b' ');
    text
}

fn decimal_text(c: u8) -> ShortText
    ensures text { result ≡ decimal c }
    ensures len { length result ≤ 3 }
{
    let mut text = ShortText::new();
    text.extend(Buffer::new().format(c).as_bytes());
    text
}

fn fault_name(fault: GateFault) -> &'static str
    ensures value { result.now ≡ gate_fault_name fault }
    ensures len { length result.now ≤ 11 }
{
    match fault {
        GateFault::BadNumber => "BadNumber",
        GateFault::AlreadyOpen => "AlreadyOpen",
        GateFault::NotOpen => "NotOpen",
    }
}
