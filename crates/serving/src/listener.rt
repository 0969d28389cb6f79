//! The listener, to which clients connect.
ghost use Rattle.std.specs.Prelude.{◌≡◌, IfOk, IfSome};
ghost use Rattle.serving.specs.Listening.{access_at, access_of};
ghost use Rattle.serving.specs.Noting.{IsFresh};

use crate::access::Access;
use crate::lock::Lock;
use crate::peer::Peer;
use crate::socket_file;
use either::Either;
use mio::event::Source;
use mio::net::{TcpListener, UnixListener};
use mio::{Interest, Registry, Token};
use std::alloc::Global;
use std::fs::{File, Files};
use std::io::{self, ErrorKind};
use std::net::{Ipv4Addr, Net, SocketAddr};

/// The address at which a server listens.
#[derive(Clone, Copy)]
pub enum Place<'a> {
    /// At a Unix socket of this path, to which only the user may connect.
    Path(&'a str),
    /// At this port of 127.0.0.1, for clients that send this first.
    Port(u16, Access),
}

/// The open listener of a server.
#[derive(Drop)]
pub enum Listener {
    /// A socket at a path, and the lock of that path.
    Unix(UnixListener, Lock),
    /// A port, and what its clients have to send first.
    Tcp(TcpListener, Access),
}

impl Listener {
    /// Listens at a place. A place at which it can't listen is left unchanged.
    pub fn bind<R: Files<File = File> + Net>(
        rt: &R,
        alloc: Global,
        place: Place<'_>,
    ) -> io::Result<Listener>
        ensures { IfOk result (λ listener. access_of listener ≡ access_at place.entry) }
    {
        match place {
            Place::Path(path) => listen_at(rt, alloc, path),
            Place::Port(port, access) => {
                let address = SocketAddr::from((Ipv4Addr::LOCALHOST, port));
                Ok(Listener::Tcp(TcpListener::bind(rt, address)?, access))
            }
        }
    }

    /// Accepts the next client; `None` if no client waits. Over TCP each reply is sent without
    /// delay.
    pub fn accept(&self) -> io::Result<Option<Peer>>
        ensures fresh { IfOk result (λ next. IfSome next IsFresh) }
        ensures access { IfOk result (λ next. IfSome next (λ peer. peer.socket.access ≡ access_of self.now)) }
    {
        let (accepted, access) = match self {
            Listener::Unix(listener, _) => {
                let accepted = listener.accept().map(|(stream, _)| Either::Left(stream));
                (accepted, Access::Any)
            }
            Listener::Tcp(listener, access) => {
                let accepted = listener.accept().map(|(stream, _)| {
                    let _ = stream.set_nodelay(true);
                    Either::Right(stream)
                });
                (accepted, *access)
            }
        };
        match accepted {
            Ok(socket) => Ok(Some(Peer::new(access, socket))),
            Err(e) if e.kind() == ErrorKind::WouldBlock => Ok(None),
            Err(e) => Err(e),
        }
    }

    /// Registers the listener, so that the system reports waiting clients.
    pub fn watch(&mut self, registry: &Registry, token: Token) -> io::Result<()> {
        match self {
            Listener::Unix(listener, _) => listener.register(registry, token, Interest::READABLE),
            Listener::Tcp(listener, _) => listener.register(registry, token, Interest::READABLE),
        }
    }

    /// Stops listening at the place. The socket's file is removed, and the lock is released last.
    pub fn close<R: Files<File = File>>(self, rt: &R, place: Place<'_>) {
        match self {
            Listener::Unix(listener, lock) => {
                if let Place::Path(path) = place {
                    socket_file::remove(rt, path);
                }
                drop(listener);
                lock.give_up(rt);
            }
            Listener::Tcp(listener, _) => drop(listener),
        }
    }
}

/// Takes the lock of a path, and listens there.
fn listen_at<R: Files<File = File> + Net>(rt: &R, alloc: Global, path: &str) -> io::Result<Listener>
    ensures { IfOk result (λ listener. access_of listener ≡ Access.Any) }
{
    if !socket_file::may_come(rt, path) {
        return Err(io::Error::from(ErrorKind::AddrInUse));
    }
    let lock = Lock::take(rt, alloc, path)?;
    match socket_file::listen(rt, alloc, path) {
        Ok(listener) => Ok(Listener::Unix(listener, lock)),
        Err(error) => {
            lock.give_up(rt);
            Err(error)
        }
    }
}
