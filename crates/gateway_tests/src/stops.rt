//! Runs and traces whose reader or writer stops after each byte, and works no more.
//!
//! The output is complete replies and a part of the next one, and the desk has taken exactly the
//! lines of these replies. A run's connection is closed: when opened again, it begins with no byte
//! of a line.

use crate::plays::{REPLIES, SESSION, Stop, Way, new_gateway, play};
use crate::stopping::{StoppingFeed, StoppingOutlet};
use base64::engine::general_purpose::STANDARD;
use gateway::{Event, Gateway};
use index_loader::Indexes;
use std::alloc::Global;
use std::process::Abort;
use std::test::Fail;

/// A question about a document, with its replies after each number of lines.
#[derive(Clone, Copy)]
struct StoppedSession<'a> {
    line: &'a str,
    replies: &'a str,
}

/// A play: what it writes as a whole, and how the desk is asked. The question shows what the desk
/// has taken.
#[derive(Clone, Copy)]
struct Play<'a> {
    way: Way,
    input: &'a str,
    output: &'a str,
    questions: &'a [StoppedSession<'a>],
}

/// The byte at 2 of the document of the stored session, by its lines.
const BYTE_OF_SESSION: StoppedSession<'static> = StoppedSession {
    line: "{\"id\":0,\"op\":\"source\",\"doc\":\"a\",\"at\":2,\"len\":1}\n",
    replies: "\
{\"fault\":\"NoDocument\",\"id\":0}
{\"bytes\":\"QQ==\",\"id\":0,\"rev\":0}
{\"bytes\":\"QQ==\",\"id\":0,\"rev\":0}
{\"bytes\":\"QQ==\",\"id\":0,\"rev\":0}
{\"bytes\":\"rA==\",\"id\":0,\"rev\":1}
{\"bytes\":\"rA==\",\"id\":0,\"rev\":1}
{\"bytes\":\"rA==\",\"id\":0,\"rev\":1}
",
};

/// Two clients by turns, each on its own document and on the other's.
const TWO_CLIENTS: &str = "\
{\"id\":1,\"op\":\"open\",\"doc\":\"a\",\"label\":\"utf-8\",\"bytes\":\"YQ==\"}
{\"id\":1,\"op\":\"open\",\"doc\":\"b\",\"label\":\"utf-16le\",\"bytes\":\"QgA=\"}
{\"id\":2,\"op\":\"splice\",\"doc\":\"a\",\"rev\":0,\"at\":0,\"del\":0,\"bytes\":\"Yg==\"}
{\"id\":2,\"op\":\"change\",\"doc\":\"b\",\"rev\":0,\"text\":\"\\u20ac\"}
{\"id\":3,\"op\":\"splice\",\"doc\":\"b\",\"rev\":0,\"at\":0,\"del\":2,\"bytes\":\"\"}
{\"id\":3,\"op\":\"close\",\"doc\":\"a\"}
{\"id\":4,\"op\":\"text\",\"doc\":\"b\",\"from\":0,\"to\":1}
";

const TO_TWO_CLIENTS: &str = "\
{\"bom\":0,\"encoding\":\"UTF-8\",\"id\":1,\"rev\":0}
{\"bom\":0,\"encoding\":\"UTF-16LE\",\"id\":1,\"rev\":0}
{\"bom\":0,\"encoding\":\"UTF-8\",\"id\":2,\"rev\":1}
{\"at\":0,\"bom\":0,\"del\":2,\"encoding\":\"UTF-16LE\",\"id\":2,\"ins\":2,\"rev\":1}
{\"fault\":\"Stale\",\"id\":3,\"rev\":1}
{\"id\":3,\"rev\":1}
{\"id\":4,\"rev\":1,\"text\":\"\u{20ac}\"}
";

/// The first byte of the first client's document.
const BYTE_OF_FIRST: StoppedSession<'static> = StoppedSession {
    line: "{\"id\":0,\"op\":\"source\",\"doc\":\"a\",\"at\":0,\"len\":1}\n",
    replies: "\
{\"fault\":\"NoDocument\",\"id\":0}
{\"bytes\":\"YQ==\",\"id\":0,\"rev\":0}
{\"bytes\":\"YQ==\",\"id\":0,\"rev\":0}
{\"bytes\":\"Yg==\",\"id\":0,\"rev\":1}
{\"bytes\":\"Yg==\",\"id\":0,\"rev\":1}
{\"bytes\":\"Yg==\",\"id\":0,\"rev\":1}
{\"fault\":\"NoDocument\",\"id\":0}
{\"fault\":\"NoDocument\",\"id\":0}
",
};

/// The bytes of the second client's document.
const BYTES_OF_SECOND: StoppedSession<'static> = StoppedSession {
    line: "{\"id\":0,\"op\":\"source\",\"doc\":\"b\",\"at\":0,\"len\":2}\n",
    replies: "\
{\"fault\":\"NoDocument\",\"id\":0}
{\"fault\":\"NoDocument\",\"id\":0}
{\"bytes\":\"QgA=\",\"id\":0,\"rev\":0}
{\"bytes\":\"QgA=\",\"id\":0,\"rev\":0}
{\"bytes\":\"rCA=\",\"id\":0,\"rev\":1}
{\"bytes\":\"rCA=\",\"id\":0,\"rev\":1}
{\"bytes\":\"rCA=\",\"id\":0,\"rev\":1}
{\"bytes\":\"rCA=\",\"id\":0,\"rev\":1}
",
};

/// Counts the lines that end in these bytes.
fn line_ends(bytes: &[u8]) -> usize {
    bytes.iter().filter(|byte| **byte == b'\n').count()
}

/// The length of the first lines of a text.
fn length_of_lines(text: &str, count: usize) -> usize {
    let mut length: usize = 0;
    for line in text.split_inclusive('\n').take(count) {
        length = length.saturating_add(line.len());
    }
    length
}

/// The output of a stopped play, and the number of lines that the desk took. The play stopped after
/// `room` bytes of its input or its output. The lines are those in the bytes that were read. If the
/// writer failed, they are those whose replies were written, and the one whose reply failed.
fn outcome<'a>(play: &Play<'a>, stop: Stop, room: usize) -> (&'a [u8], usize) {
    let output = play.output.as_bytes();
    if stop == Stop::Writer {
        let sent = output.get(..room).unwrap_or(&[]);
        return (sent, line_ends(sent).saturating_add(1));
    }
    let opens = match play.way {
        Way::Run => 0,
        Way::Trace => 2,
    };
    let read = play.input.as_bytes().get(..room).unwrap_or(&[]);
    let count = line_ends(read).saturating_sub(opens);
    let sent = output
        .get(..length_of_lines(play.output, count))
        .unwrap_or(&[]);
    (sent, count)
}

/// Asserts that this line, the first on a connection, has this reply.
fn expect_reply(
    rt: &impl Abort,
    gateway: &mut Gateway<'_>,
    number: u8,
    line: &str,
    wanted: Option<&str>,
) {
    match gateway.event(Event::Bytes(number, line.as_bytes())) {
        Ok(out) => {
            let reply = out.reply.as_ref().map(|line| line.bytes());
            assert_eq!(rt; reply, wanted.map(str::as_bytes), "to {line}");
        }
        Err(_) => panic!(rt; "refused: {line}"),
    }
}

/// Asserts that the desk has taken `count` lines: it is asked on the connection of a run, which is
/// closed, or on another one than those of a trace.
fn expect_taken(rt: &impl Abort, gateway: &mut Gateway<'_>, play: &Play<'_>, count: usize) {
    let number = match play.way {
        Way::Run => 0,
        Way::Trace => 9,
    };
    assert!(rt; gateway.event(Event::Open(number)).is_ok());
    for question in play.questions {
        let reply = question.replies.split_inclusive('\n').nth(count);
        expect_reply(rt, gateway, number, question.line, reply);
    }
}

/// The device that stops gives or takes `room` bytes and then fails.
fn stop_behind(
    rt: &impl Abort,
    alloc: Global,
    it: &Play<'_>,
    stop: Stop,
    room: usize,
) -> Result<(), Fail> {
    let indexes = Indexes::new();
    let mut gateway = new_gateway(alloc, &indexes)?;
    let (read, written) = match stop {
        Stop::Reader => (room, usize::MAX),
        _ => (usize::MAX, room),
    };
    let mut reader = StoppingFeed::new(it.input.as_bytes(), read);
    let mut writer = StoppingOutlet::new(alloc, written);
    let stopped = play(alloc, it.way, &mut gateway, &mut reader, &mut writer);
    assert_eq!(rt; stopped, Some(stop), "behind byte {room}");
    let (sent, count) = outcome(it, stop, room);
    assert_eq!(rt; writer.bytes(), sent, "behind byte {room}");
    expect_taken(rt, &mut gateway, it, count);
    Ok(())
}

/// Stops the reader after each byte of the input. It stops the writer before each byte of the
/// output.
fn stop_each(rt: &impl Abort, alloc: Global, it: &Play<'_>) -> Result<(), Fail> {
    for room in 0..=it.input.len() {
        stop_behind(rt, alloc, it, Stop::Reader, room)?;
    }
    for room in 0..it.output.len() {
        stop_behind(rt, alloc, it, Stop::Writer, room)?;
    }
    Ok(())
}

/// Appends the event of a line to a trace.
fn put_event(alloc: Global, text: &mut String, number: usize, line: &str) -> Result<(), Fail> {
    let bytes = STANDARD.encode(alloc, line.as_bytes())?;
    write!(text, "bytes {number} {bytes}\n")?;
    Ok(())
}

/// A trace of these lines, by turns on connections 1 and 2.
fn traced(alloc: Global, lines: &str) -> Result<String, Fail> {
    let mut text = String::from_str(alloc, "open 1\nopen 2\n")?;
    for (n, line) in lines.split_inclusive('\n').enumerate() {
        put_event(alloc, &mut text, 1 + n % 2, line)?;
    }
    Ok(text)
}

/// The output of such a trace with these replies.
fn printed(alloc: Global, replies: &str) -> Result<String, Fail> {
    let mut text = String::new(alloc);
    for (n, reply) in replies.split_inclusive('\n').enumerate() {
        write!(text, "{} {reply}", 1 + n % 2)?;
    }
    Ok(text)
}

/// Stops a run of these lines.
fn stop_run(
    rt: &impl Abort,
    alloc: Global,
    (input, output): (&str, &str),
    questions: &[StoppedSession<'_>],
) -> Result<(), Fail> {
    let it = Play {
        way: Way::Run,
        input,
        output,
        questions,
    };
    stop_each(rt, alloc, &it)
}

/// Stops a trace of these lines.
fn stop_trace(
    rt: &impl Abort,
    alloc: Global,
    (lines, replies): (&str, &str),
    questions: &[StoppedSession<'_>],
) -> Result<(), Fail> {
    let input = traced(alloc, lines)?;
    let output = printed(alloc, replies)?;
    let it = Play {
        way: Way::Trace,
        input: input.as_str(),
        output: output.as_str(),
        questions,
    };
    stop_each(rt, alloc, &it)
}

#[test]
fn stored_session_stopped_at_each_byte(rt: HostRuntime) -> Result<(), Fail> {
    let questions = [BYTE_OF_SESSION];
    stop_run(&rt, rt.alloc(), (SESSION, REPLIES), &questions)?;
    stop_trace(&rt, rt.alloc(), (SESSION, REPLIES), &questions)
}

#[test]
fn two_clients_stopped_at_each_byte(rt: HostRuntime) -> Result<(), Fail> {
    let questions = [BYTE_OF_FIRST, BYTES_OF_SECOND];
    stop_run(&rt, rt.alloc(), (TWO_CLIENTS, TO_TWO_CLIENTS), &questions)?;
    stop_trace(&rt, rt.alloc(), (TWO_CLIENTS, TO_TWO_CLIENTS), &questions)
}
