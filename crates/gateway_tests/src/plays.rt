//! Lines that are played by a run or a trace, and how that ends.

use desk::Desk;
use enc_names::Labels;
use gateway::{Feed, Gateway, Outlet, RunFault, TraceFault, run, trace};
use index_loader::Indexes;
use std::alloc::Global;
use std::test::Fail;

/// The session of examples/session.jsonl.
pub const SESSION: &str = "\
{\"id\":1,\"op\":\"open\",\"doc\":\"a\",\"label\":\"utf-8\",\"bytes\":\"4oJB\"}
{\"id\":2,\"op\":\"text\",\"doc\":\"a\",\"from\":0,\"to\":2}
{\"id\":3,\"op\":\"errors\",\"doc\":\"a\",\"from\":0,\"max\":10}
{\"id\":4,\"op\":\"splice\",\"doc\":\"a\",\"rev\":0,\"at\":2,\"del\":0,\"bytes\":\"rA==\"}
{\"id\":5,\"op\":\"text\",\"doc\":\"a\",\"from\":0,\"to\":2}
{\"id\":6,\"op\":\"splice\",\"doc\":\"a\",\"rev\":1,\"at\":5,\"del\":0,\"bytes\":\"\"}
";

/// The replies to it.
pub const REPLIES: &str = "\
{\"bom\":0,\"encoding\":\"UTF-8\",\"id\":1,\"rev\":0}
{\"id\":2,\"rev\":0,\"text\":\"\u{fffd}A\"}
{\"errors\":[[0,2]],\"id\":3,\"rev\":0,\"total\":1}
{\"bom\":0,\"encoding\":\"UTF-8\",\"id\":4,\"rev\":1}
{\"id\":5,\"rev\":1,\"text\":\"\u{20ac}A\"}
{\"fault\":\"OutOfRange\",\"id\":6}
";

/// The way in which lines reach the gateway.
#[derive(Clone, Copy, PartialEq, Eq)]
pub enum Way {
    /// Lines reach it by `run`, on connection 0.
    Run,
    /// Lines reach it by `trace`, on connections 1 and 2.
    Trace,
}

/// The cause that ended a play early.
#[derive(Clone, Copy, PartialEq, Eq, Debug)]
pub enum Stop {
    /// The reader failed.
    Reader,
    /// The writer failed.
    Writer,
    /// Anything else.
    Other,
}

/// A gateway without index files, whose labels are the names alone.
pub fn new_gateway<'i>(alloc: Global, indexes: &'i Indexes) -> Result<Gateway<'i>, Fail> {
    let labels = Labels::names(alloc)?;
    let desk = Desk::new(alloc, indexes, labels)?;
    Ok(Gateway::new(alloc, desk))
}

/// Plays what is read, and returns what ended it early, if anything did.
pub fn play<R: Feed, W: Outlet>(
    alloc: Global,
    way: Way,
    gateway: &mut Gateway<'_>,
    reader: &mut R,
    writer: &mut W,
) -> Option<Stop> {
    match way {
        Way::Run => match run(gateway, 0, reader, writer) {
            Ok(()) => None,
            Err(RunFault::Read) => Some(Stop::Reader),
            Err(RunFault::Write) => Some(Stop::Writer),
            Err(_) => Some(Stop::Other),
        },
        Way::Trace => match trace(alloc, gateway, reader, writer) {
            Ok(()) => None,
            Err(TraceFault::Read) => Some(Stop::Reader),
            Err(TraceFault::Write) => Some(Stop::Writer),
            Err(_) => Some(Stop::Other),
        },
    }
}
