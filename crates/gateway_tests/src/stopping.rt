//! Devices of tests, which work for some bytes and then fail at every call.
ghost use Rattle.std.specs.Prelude.{◌+◌};

use gateway::{Failed, Feed, MemFeed, MemOutlet, Outlet};
use std::alloc::Global;

/// Gives the first `room` of its bytes, and then fails.
#[derive(Drop)]
pub struct StoppingFeed<'a> {
    bytes: MemFeed<'a>,
    room: usize,
    /// Read once for each read that fails, so that contracts have their number.
    failed: MemFeed<'a>,
}

impl<'a> StoppingFeed<'a> {
    /// The device that gives `room` of these bytes.
    pub fn new(bytes: &'a [u8], room: usize) -> StoppingFeed<'a> {
        StoppingFeed {
            bytes: MemFeed::new(bytes),
            room,
            failed: MemFeed::new(&[]),
        }
    }
}

impl<'a> Feed for StoppingFeed<'a> {
    ghost seen = { λ d. record (⟦<MemFeed<'a> as Feed>⟧.seen d.bytes) {
      reads = (⟦<MemFeed<'a> as Feed>⟧.seen d.bytes).reads + (⟦<MemFeed<'a> as Feed>⟧.seen d.failed).reads;
      failures = (⟦<MemFeed<'a> as Feed>⟧.seen d.failed).reads;
    } };

    fn read(&mut self, buf: &mut [u8]) -> Result<usize, Failed> {
        if self.room == 0 {
            let _ = self.failed.read(&mut []);
            return Err(Failed);
        }
        let most = self.room.min(buf.len());
        match self.bytes.read(&mut buf[..most]) {
            Ok(n) => {
                self.room -= n;
                Ok(n)
            }
            Err(Failed) => unreachable!(),
        }
    }
}

/// Takes `room` bytes, and then fails.
#[derive(Drop)]
pub struct StoppingOutlet {
    taken: MemOutlet,
    room: usize,
    /// Counts writes that fail for lack of room, for contracts. It is written to once for each.
    failed: MemOutlet,
}

impl StoppingOutlet {
    /// The device that takes `room` bytes.
    pub fn new(alloc: Global, room: usize) -> StoppingOutlet {
        StoppingOutlet {
            taken: MemOutlet::new(alloc),
            room,
            failed: MemOutlet::new(alloc),
        }
    }

    /// The bytes that were written.
    pub fn bytes(&self) -> &[u8] {
        self.taken.bytes()
    }
}

impl Outlet for StoppingOutlet {
    ghost took = { λ d. record {
      written = (⟦<MemOutlet as Outlet>⟧.took d.taken).written;
      writes = (⟦<MemOutlet as Outlet>⟧.took d.taken).writes + (⟦<MemOutlet as Outlet>⟧.took d.failed).writes;
      failures = (⟦<MemOutlet as Outlet>⟧.took d.taken).failures + (⟦<MemOutlet as Outlet>⟧.took d.failed).writes;
    } };

    fn write(&mut self, buf: &[u8]) -> Result<usize, Failed> {
        if self.room == 0 {
            let _ = self.failed.write(&[]);
            return Err(Failed);
        }
        let most = self.room.min(buf.len());
        match self.taken.write(&buf[..most]) {
            Ok(n) => {
                self.room -= n;
                Ok(n)
            }
            Err(Failed) => Err(Failed),
        }
    }
}
