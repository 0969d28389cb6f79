//! Devices over memory.
ghost use Rattle.std.specs.Prelude.{◌≡◌, Some};
ghost use Rattle.devices.specs.Devices.{counted, unread, unwritten};
ghost use Rattle.devices.specs.Histories.{bytes_of};

use crate::count::Count;
use crate::device::{Failed, Feed, Outlet};
use crate::history::History;
use std::alloc::Global;

/// A slice to read from. It never fails.
#[derive(Drop)]
pub struct MemFeed<'a> {
    rest: &'a [u8],
    received: History,
    reads: Count,
    ends: Count,
}

impl<'a> MemFeed<'a> {
    /// The device from which these bytes are read, and then the end.
    pub fn new(bytes: &'a [u8]) -> MemFeed<'a>
        ensures { ⟦<MemFeed<'a> as Feed>⟧.seen result ≡ unread (Some bytes.now) }
    {
        MemFeed {
            rest: bytes,
            received: History::Empty,
            reads: Count::Never,
            ends: Count::Never,
        }
    }
}

impl<'a> Feed for MemFeed<'a> {
    ghost seen = { λ d. record {
      received = bytes_of d.received;
      left = Some d.rest.now;
      reads = counted d.reads;
      ends = counted d.ends;
      failures = 0;
    } };

    fn read(&mut self, buf: &mut [u8]) -> Result<usize, Failed> {
        self.reads.next();
        let n = self.rest.len().min(buf.len());
        if n == 0 && !buf.is_empty() {
            self.ends.next();
        }
        buf[..n].copy_from_slice(&self.rest[..n]);
        self.received.extend(&buf[..n]);
        self.rest = &self.rest[n..];
        Ok(n)
    }
}

/// A buffer to write to. A write fails where memory runs out.
#[derive(Drop)]
pub struct MemOutlet {
    contents: Vec<u8>,
    writes: Count,
    failures: Count,
}

impl MemOutlet {
    /// An empty buffer.
    pub fn new(alloc: Global) -> MemOutlet
        ensures { ⟦<MemOutlet as Outlet>⟧.took result ≡ unwritten }
    {
        MemOutlet {
            contents: Vec::new(alloc),
            writes: Count::Never,
            failures: Count::Never,
        }
    }

    /// The bytes that were written.
    pub fn bytes(&self) -> &[u8]
        ensures { (⟦<MemOutlet as Outlet>⟧.took self.now).written ≡ Some result.now }
    {
        &self.contents
    }
}

impl Outlet for MemOutlet {
    ghost took = { λ d. record {
      written = Some d.contents.items;
      writes = counted d.writes;
      failures = counted d.failures;
    } };

    fn write(&mut self, buf: &[u8]) -> Result<usize, Failed> {
        self.writes.next();
        match self.contents.extend_from_slice(buf) {
            Ok(()) => Ok(buf.len()),
            Err(_) => {
                self.failures.next();
                Err(Failed)
            }
        }
    }
}
