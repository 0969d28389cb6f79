//! A socket whose client has to send something first.
ghost use Rattle.std.specs.Prelude.{◌≡◌, ◌⊎◌, ◌++◌, [], take};
ghost use Rattle.std.specs.Io.{ReadsAtMost, WritesAtMost};
ghost use Rattle.devices.specs.Devices.{read_bytes};
ghost use Rattle.devices.specs.Histories.{bytes_of};
ghost use Rattle.devices.specs.Wires.{taken_count};
ghost use Rattle.serving.specs.Checking.{IsKnown};

use crate::access::Access;
use crate::check::Check;
use crate::duplex::{Duplex, Socket};
use crate::first_line::FIRST_LINE;
use mio::{Interest, Registry, Token};
use std::io::{self, Error, ErrorKind};

/// The socket of a client that has to send something first. Its reads return what comes after
/// that. If something else comes first, they return the end.
#[derive(Drop)]
pub struct Guarded {
    access: Access,
    socket: Duplex<Socket>,
    check: Check,
    ghost known: { IsKnown access check (bytes_of socket.received) },
}

impl Guarded {
    ghost use Rattle.serving.specs.Guarding.{given_by, taken_by};

    /// Wraps a socket, before its first call.
    pub fn new(access: Access, socket: Socket) -> Guarded
        ensures access { result.access ≡ access }
        ensures stream { result.socket.stream ≡ socket }
        ensures given { given_by result ≡ [] }
        ensures taken { taken_by result ≡ [] }
    {
        Guarded {
            access,
            socket: Duplex::new(socket),
            check: Check::new(access),
        }
    }

    /// Reads once what is passed on. What it returns of what the client sent is what is admitted by
    /// what the client has to send first (`given`).
    pub fn read(&mut self, buf: &mut [u8]) -> io::Result<usize>
        ensures bound { ReadsAtMost result buf.new }
        ensures given { given_by self.new ≡ given_by self.old ++ read_bytes result buf.new }
        ensures taken { taken_by self.new ≡ taken_by self.old }
        ensures access { self.new.access ≡ self.old.access }
    {
        self.read_line()?;
        match self.check {
            Check::Passed => self.socket.read(buf),
            Check::Failed => Ok(0),
            Check::NoRequest | Check::Object => self.read_first(buf),
            Check::Line(_) => Err(Error::from(ErrorKind::InvalidData)),
        }
    }

    /// Reads the first line, if one is asked for. Its bytes are read one by one, so that no byte
    /// after it is read.
    fn read_line(&mut self) -> io::Result<()>
        ensures given { given_by self.new ≡ given_by self.old }
        ensures taken { taken_by self.new ≡ taken_by self.old }
        ensures access { self.new.access ≡ self.old.access }
    {
        for _ in 0..=FIRST_LINE {
            let Check::Line(line) = self.check else {
                return Ok(());
            };
            let mut byte = [0];
            if self.socket.read(&mut byte)? == 0 {
                return Err(Error::from(ErrorKind::UnexpectedEof));
            }
            self.check = Check::behind(line.next(byte[0]));
        }
        Ok(())
    }

    /// Reads the first bytes, and passes them on if the first one is right.
    fn read_first(&mut self, buf: &mut [u8]) -> io::Result<usize>
        requires { (self.old.check ≡ Check.NoRequest) ⊎ (self.old.check ≡ Check.Object) }
        ensures bound { ReadsAtMost result buf.new }
        ensures given { given_by self.new ≡ given_by self.old ++ read_bytes result buf.new }
        ensures taken { taken_by self.new ≡ taken_by self.old }
        ensures access { self.new.access ≡ self.old.access }
    {
        let n = self.socket.read(buf)?;
        if n == 0 {
            return Ok(0);
        }
        self.check = self.check.after(buf[0]);
        match self.check {
            Check::Passed => Ok(n),
            _ => Ok(0),
        }
    }

    /// Writes once.
    pub fn write(&mut self, buf: &[u8]) -> io::Result<usize>
        ensures bound { WritesAtMost result buf.now }
        ensures given { given_by self.new ≡ given_by self.old }
        ensures taken { taken_by self.new ≡ taken_by self.old ++ take (taken_count result) buf.now }
        ensures access { self.new.access ≡ self.old.access }
    {
        self.socket.write(buf)
    }

    /// Registers the socket, so that the system reports its events.
    pub fn register(
        &mut self,
        registry: &Registry,
        token: Token,
        interest: Interest,
    ) -> io::Result<()>
        ensures { self.new ≡ self.old }
    {
        self.socket.register(registry, token, interest)
    }

    /// Changes the events of the socket that the system reports.
    pub fn reregister(
        &mut self,
        registry: &Registry,
        token: Token,
        interest: Interest,
    ) -> io::Result<()>
        ensures { self.new ≡ self.old }
    {
        self.socket.reregister(registry, token, interest)
    }
}
