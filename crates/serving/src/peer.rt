//! A client's socket.
ghost use Rattle.std.specs.Prelude.{◌≡◌, ◌⊎◌, ◌<◌, ◌≤◌, ◌++◌, length, take, not, true, false, IfOk, OnOk, OnErr};
ghost use Rattle.devices.specs.Wires.{ArrivesSome, arrived, arrived_count, taken_count};
ghost use Rattle.serving.specs.Guarding.{given_by, taken_by};
ghost use Rattle.serving.specs.Noting.{IsFresh, noted};

use crate::access::Access;
use crate::duplex::Socket;
use crate::guarded::Guarded;
use devices::{Arrival, Failed, Wire};
use mio::event::Event;
use mio::{Interest, Registry, Token};
use std::io::{self, ErrorKind};

/// The socket of a client, and what is known of its readiness. The system reports a change once. So
/// the socket counts as ready after a report, until a call finds that it would have to wait.
#[derive(Drop)]
pub struct Peer {
    /// The socket. Its bytes are passed on once its client has sent what it has to send first.
    socket: Guarded,
    /// Whether a read may find something.
    may_read: bool,
    /// Whether a write may be taken.
    may_write: bool,
    /// Whether the system reports room for writing. Otherwise it would report each reply that the
    /// client reads.
    is_room_watched: bool,
    /// Whether the client will send no more. Then no report follows before the end is read.
    hung_up: bool,
    /// Whether the end was read, or a call failed.
    over: bool,
}

impl Peer {
    /// Creates the socket of a client that was just accepted.
    pub fn new(access: Access, socket: Socket) -> Peer
        ensures fresh { IsFresh result }
        ensures access { result.socket.access ≡ access }
        ensures socket { result.socket.socket.stream ≡ socket }
    {
        Peer {
            socket: Guarded::new(access, socket),
            may_read: true,
            may_write: true,
            is_room_watched: false,
            hung_up: false,
            over: false,
        }
    }

    /// Registers the socket, so that the system reports its events.
    pub fn watch(&mut self, registry: &Registry, token: Token) -> io::Result<()>
        ensures { self.new ≡ self.old }
    {
        self.socket.register(registry, token, Interest::READABLE)
    }

    /// Watches for room for writing exactly if a write waits for it.
    pub fn watch_room(&mut self, registry: &Registry, token: Token) -> io::Result<()>
        ensures watched { OnOk result (self.new.is_room_watched ≡ not self.new.may_write) }
        ensures failed { OnErr result (self.new.over ≡ true) }
        ensures rest { self.new ≡ record self.old { is_room_watched = self.new.is_room_watched; over = self.new.over } }
    {
        if self.is_room_watched != self.may_write {
            return Ok(());
        }
        self.is_room_watched = !self.may_write;
        let interest = if self.may_write {
            Interest::READABLE
        } else {
            Interest::READABLE | Interest::WRITABLE
        };
        let watched = self.socket.reregister(registry, token, interest);
        self.over |= watched.is_err();
        watched
    }

    /// Notes what the system reported about the socket.
    pub fn note(&mut self, event: &Event)
        ensures { self.new ≡ noted event.now self.old }
    {
        let broken = event.is_error() || event.is_write_closed();
        self.hung_up |= broken || event.is_read_closed();
        self.may_read |= self.hung_up || event.is_readable();
        self.may_write |= broken || event.is_writable();
    }
}

// If fewer bytes pass than there was room for, the next call would have to wait. The system reports
// when it no longer would, so one call in two is saved.
impl Wire for Peer {
    ghost received = { λ p. given_by p.socket };

    ghost sent = { λ p. taken_by p.socket };

    ghost is_empty = { λ p. p.may_read ≡ false };

    ghost is_full = { λ p. p.may_write ≡ false };

    ghost is_over = { λ p. p.over ≡ true };

    fn read(&mut self, buf: &mut [u8]) -> Result<Arrival, Failed>
        ensures bound { arrived_count result ≤ length buf.new }
        ensures some { IfOk result ArrivesSome }
        ensures received { given_by self.new.socket ≡ given_by self.old.socket ++ arrived result buf.new }
        ensures sent { taken_by self.new.socket ≡ taken_by self.old.socket }
        ensures empty { IfOk result (λ arrival. arrival ≡ Arrival.NotYet → self.new.may_read ≡ false) }
        ensures end { IfOk result (λ arrival. arrival ≡ Arrival.End → self.new.over ≡ true) }
        ensures failed { OnErr result (self.new.over ≡ true) }
        ensures emptied { 0 < length buf.new → self.new.may_read ≡ false → (self.old.may_read ≡ false) ⊎ (arrived_count result < length buf.new) }
        ensures hung_up { self.old.hung_up ≡ true → self.old.may_read ≡ true → 0 < arrived_count result → self.new.may_read ≡ true }
        ensures rest { self.new ≡ record self.old {
          socket = self.new.socket;
          may_read = self.new.may_read;
          over = self.new.over;
        } }
    {
        if !self.may_read {
            return Ok(Arrival::NotYet);
        }
        let result = self.socket.read(buf);
        match result {
            Ok(0) => {
                self.over = true;
                Ok(Arrival::End)
            }
            Ok(n) => {
                self.may_read = self.hung_up || n == buf.len();
                Ok(Arrival::Bytes(n))
            }
            Err(e) if e.kind() == ErrorKind::WouldBlock => {
                self.may_read = false;
                Ok(Arrival::NotYet)
            }
            Err(_) => {
                self.over = true;
                Err(Failed)
            }
        }
    }

    fn write(&mut self, buf: &[u8]) -> Result<usize, Failed>
        ensures bound { taken_count result ≤ length buf.now }
        ensures received { given_by self.new.socket ≡ given_by self.old.socket }
        ensures sent { taken_by self.new.socket ≡ taken_by self.old.socket ++ take (taken_count result) buf.now }
        ensures full { IfOk result (λ n. n ≡ 0 → 0 < length buf.now → self.new.may_write ≡ false) }
        ensures failed { OnErr result (self.new.over ≡ true) }
        ensures filled { 0 < length buf.now → self.new.may_write ≡ false → (self.old.may_write ≡ false) ⊎ (taken_count result < length buf.now) }
        ensures rest { self.new ≡ record self.old { socket = self.new.socket; may_write = self.new.may_write; over = self.new.over } }
    {
        if !self.may_write {
            return Ok(0);
        }
        let result = self.socket.write(buf);
        match result {
            Ok(n) => {
                self.may_write = n == buf.len();
                Ok(n)
            }
            Err(e) if e.kind() == ErrorKind::WouldBlock => {
                self.may_write = false;
                Ok(0)
            }
            Err(_) => {
                self.over = true;
                Err(Failed)
            }
        }
    }
}
