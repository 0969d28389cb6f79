//! Runs and traces over writers that take a few bytes at a time.

use crate::breaking::Narrow;
use crate::plays::{REPLIES, SESSION, Stop, Way, new_gateway, play};
use gateway::{Gateway, MemFeed, ToWrite};
use index_loader::Indexes;
use std::alloc::Global;
use std::process::Abort;
use std::test::Fail;

/// A trace with two refusals and two replies, and what it prints.
const TRACE: &str = "open 3\nopen 3\nbytes 3 e30Ke30K\nopen 16\n";

const TRACE_PRINTED: &str = "\
3 !AlreadyOpen
3 {\"fault\":\"BadRequest\",\"field\":\"id\"}
3 {\"fault\":\"BadRequest\",\"field\":\"id\"}
16 !BadNumber
";

/// Plays an input to a device that takes `at_once` bytes a write. It has room for `room` bytes in
/// all.
fn play_narrow(
    alloc: Global,
    way: Way,
    gateway: &mut Gateway<'_>,
    input: &str,
    out: &mut Vec<u8>,
    at_once: usize,
    room: usize,
) -> Option<Stop> {
    let mut reader = MemFeed::new(input.as_bytes());
    let mut writer = ToWrite::new(Narrow { out, at_once, room });
    play(alloc, way, gateway, &mut reader, &mut writer)
}

/// Asserts that such a device gets as much of this output as fits. If that isn't all, the play must
/// end early.
fn expect_narrow(
    rt: &impl Abort,
    alloc: Global,
    way: Way,
    (input, output): (&str, &str),
    at_once: usize,
    room: usize,
) -> Result<(), Fail> {
    let indexes = Indexes::new();
    let mut gateway = new_gateway(alloc, &indexes)?;
    let mut out = Vec::new(alloc);
    let stop = play_narrow(alloc, way, &mut gateway, input, &mut out, at_once, room);
    let written = room.min(output.len());
    let wanted = if written < output.len() {
        Some(Stop::Writer)
    } else {
        None
    };
    assert_eq!(rt; stop, wanted, "{at_once} at once, with room for {room}");
    assert_eq!(rt; out.as_slice(), &output.as_bytes()[..written]);
    Ok(())
}

#[test]
fn writers_that_take_a_few_bytes_at_a_time(rt: HostRuntime) -> Result<(), Fail> {
    let session = (SESSION, REPLIES);
    for at_once in [1, 3, 7] {
        expect_narrow(&rt, rt.alloc(), Way::Run, session, at_once, usize::MAX)?;
    }
    let trace = (TRACE, TRACE_PRINTED);
    for room in 0..=TRACE_PRINTED.len() {
        expect_narrow(&rt, rt.alloc(), Way::Trace, trace, 5, room)?;
    }
    Ok(())
}
