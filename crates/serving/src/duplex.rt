//! A socket in both directions.
ghost use Rattle.std.specs.Prelude.{◌≡◌, ◌++◌, [], take};
ghost use Rattle.std.specs.Io.{ReadsAtMost, WritesAtMost};
ghost use Rattle.std.specs.Io.KnownBytes.{ReadConsumes, WriteAppends};
ghost use Rattle.devices.specs.Devices.{read_bytes};
ghost use Rattle.devices.specs.Histories.{bytes_of};
ghost use Rattle.devices.specs.Wires.{taken_count};

use devices::History;
use either::Either;
use mio::event::Source;
use mio::net::{TcpStream, UnixStream};
use mio::{Interest, Registry, Token};
use std::io::{self, Read, Write};

/// The stream of a client, over a Unix socket or TCP. Its calls never block.
pub type Socket = Either<UnixStream, TcpStream>;

/// A stream with a record of the bytes read from it and written to it. Nothing else reads from the
/// stream or writes to it, so the record has every byte that passed. The record is for contracts
/// alone.
#[derive(Drop)]
pub struct Duplex<S> {
    stream: S,
    received: History,
    sent: History,
}

impl<S> Duplex<S> {
    /// Wraps a stream, before its first call.
    pub fn new(stream: S) -> Duplex<S>
        ensures stream { result.stream ≡ stream }
        ensures received { bytes_of result.received ≡ [] }
        ensures sent { bytes_of result.sent ≡ [] }
    {
        Duplex {
            stream,
            received: History::Empty,
            sent: History::Empty,
        }
    }
}

impl<S: Read> Duplex<S> {
    /// Reads once. The bytes recorded are those that the stream returned (`given`).
    pub fn read(&mut self, buf: &mut [u8]) -> io::Result<usize>
        ensures bound { ReadsAtMost result buf.new }
        ensures received { bytes_of self.new.received ≡ bytes_of self.old.received ++ read_bytes result buf.new }
        ensures sent { self.new.sent ≡ self.old.sent }
        ensures given { ReadConsumes (S.remaining self.old.stream) (S.remaining self.new.stream) result buf.new }
    {
        let n = self.stream.read(buf)?;
        self.received.extend(&buf[..n]);
        Ok(n)
    }
}

impl<S: Write> Duplex<S> {
    /// Writes once. The bytes recorded were handed to the stream (`handed`).
    pub fn write(&mut self, buf: &[u8]) -> io::Result<usize>
        ensures bound { WritesAtMost result buf.now }
        ensures received { self.new.received ≡ self.old.received }
        ensures sent { bytes_of self.new.sent ≡ bytes_of self.old.sent ++ take (taken_count result) buf.now }
        ensures handed { WriteAppends (S.contents self.old.stream) (S.contents self.new.stream) result buf.now }
    {
        let n = self.stream.write(buf)?;
        self.sent.extend(&buf[..n]);
        Ok(n)
    }
}

impl Duplex<Socket> {
    /// Registers the socket, so that the system reports its events.
    pub fn register(
        &mut self,
        registry: &Registry,
        token: Token,
        interest: Interest,
    ) -> io::Result<()>
        ensures { self.new ≡ self.old }
    {
        match &mut self.stream {
            Either::Left(stream) => stream.register(registry, token, interest),
            Either::Right(stream) => stream.register(registry, token, interest),
        }
    }

    /// Changes the events of the socket that the system reports.
    pub fn reregister(
        &mut self,
        registry: &Registry,
        token: Token,
        interest: Interest,
    ) -> io::Result<()>
        ensures { self.new ≡ self.old }
    {
        match &mut self.stream {
            Either::Left(stream) => stream.reregister(registry, token, interest),
            Either::Right(stream) => stream.reregister(registry, token, interest),
        }
    }
}
