//! Devices over std's readers and writers. They record what the reads returned and what the writes
//! took, so that contracts know the bytes of a stream of the system too.
ghost use Rattle.std.specs.Prelude.{◌≡◌, ◌+◌, ◌<◌, ◌≤◌, Some, length, IfOk};
ghost use Rattle.std.specs.Io.KnownBytes.{WriteAppends};
ghost use Rattle.devices.specs.Devices.{counted, failures_after, unread, unwritten};
ghost use Rattle.devices.specs.Histories.{bytes_of};

use crate::count::Count;
use crate::device::{Failed, Feed, Outlet};
use crate::history::History;
use std::io::{Read, Write};

/// A device over a reader. A read fails where the reader returns an error.
#[derive(Drop)]
pub struct FromRead<R> {
    reader: R,
    received: History,
    reads: Count,
    ends: Count,
    failures: Count,
}

impl<R: Read> FromRead<R> {
    /// The device over `reader`, with no reads yet.
    pub fn new(reader: R) -> FromRead<R>
        ensures { ⟦<FromRead<R> as Feed>⟧.seen result ≡ unread (R.remaining reader) }
    {
        FromRead {
            reader,
            received: History::Empty,
            reads: Count::Never,
            ends: Count::Never,
            failures: Count::Never,
        }
    }
}

impl<R: Read> Feed for FromRead<R> {
    ghost seen = { λ d. record {
      received = bytes_of d.received;
      left = R.remaining d.reader;
      reads = counted d.reads;
      ends = counted d.ends;
      failures = counted d.failures;
    } };

    fn read(&mut self, buf: &mut [u8]) -> Result<usize, Failed> {
        self.reads.next();
        match self.reader.read(buf) {
            Ok(n) => {
                self.received.extend(&buf[..n]);
                if n == 0 && !buf.is_empty() {
                    self.ends.next();
                }
                Ok(n)
            }
            Err(_) => {
                self.failures.next();
                Err(Failed)
            }
        }
    }
}

/// A device over a writer. A write fails where the writer returns an error, and where it takes no
/// byte although there are some.
#[derive(Drop)]
pub struct ToWrite<W> {
    writer: W,
    taken: History,
    writes: Count,
    failures: Count,
}

impl<W: Write> ToWrite<W> {
    /// Makes the device over `writer` (`writer`), with no writes yet (`took`). It writes nothing.
    pub fn new(writer: W) -> ToWrite<W>
        ensures took { ⟦<ToWrite<W> as Outlet>⟧.took result ≡ unwritten }
        ensures writer { result.writer ≡ writer }
    {
        ToWrite {
            writer,
            taken: History::Empty,
            writes: Count::Never,
            failures: Count::Never,
        }
    }
}

impl<W: Write> Outlet for ToWrite<W> {
    ghost took = { λ d. record {
      written = Some (bytes_of d.taken);
      writes = counted d.writes;
      failures = counted d.failures;
    } };

    /// Writes bytes from the front of `buf` by one call of the writer, and returns how many. It is at
    /// most the length of `buf` (`bound`), and at least one if `buf` has any (`some`). These bytes are
    /// recorded as taken (`bytes`). They were handed to the writer, and no others were (`handed`). The
    /// write is counted (`writes`), and also as a failure if it failed (`failures`).
    fn write(&mut self, buf: &[u8]) -> Result<usize, Failed>
        ensures bound { IfOk result (λ n. n ≤ length buf.now) }
        ensures some { IfOk result (λ n. 0 < length buf.now → 0 < n) }
        ensures bytes { WriteAppends (Some (bytes_of self.old.taken)) (Some (bytes_of self.new.taken)) result buf.now }
        ensures writes { counted self.new.writes ≡ counted self.old.writes + 1 }
        ensures failures { counted self.new.failures ≡ failures_after result (counted self.old.failures) }
        ensures handed { WriteAppends (W.contents self.old.writer) (W.contents self.new.writer) result buf.now }
    {
        self.writes.next();
        match self.writer.write(buf) {
            Ok(n) if n > 0 || buf.is_empty() => {
                self.taken.extend(&buf[..n]);
                Ok(n)
            }
            _ => {
                self.failures.next();
                Err(Failed)
            }
        }
    }
}
