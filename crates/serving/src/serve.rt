//! Serving at a place, from the first client to the end.
ghost use Rattle.std.specs.Prelude.{◌≡◌, ◌≢◌, ◌⊎◌, false, None, Err, replicate};
ghost use Rattle.std.specs.IoError.{error_kind};
ghost use Rattle.connections.specs.Events.{connections};
ghost use Rattle.serving.specs.Acting.{Serves};
ghost use Rattle.serving.specs.Resting.{Seated};

use crate::listener::{Listener, Place};
use crate::server::{Limits, Refusal, Server};
use connections::KeepsEvents;
use sessions::{Sessions, law_acts_in_a_row};
use std::alloc::Global;
use std::fs::{File, Files};
use std::io::{Error, ErrorKind};
use std::net::Net;
use std::time::Clock;

/// The reason why serving ended before its limits, or didn't start.
#[derive(Clone, Copy, PartialEq, Eq, Debug)]
pub enum ServingFault {
    /// The place can't be listened at, or another server listens there.
    Listen,
    /// A client couldn't be accepted, and the limits allow no retry.
    Accept,
    /// The system doesn't report events, or the time.
    Poll,
    /// Bytes received from a client can't be kept.
    Unkept,
    /// Memory ran out before the first client.
    OutOfMemory,
}

/// Serves clients at a place, within the limits; other clients wait (`serves`). When it starts, no
/// client is connected. At the end the socket's file is removed, unless a signal ends the process.
///
/// # Errors
///
/// - `Listen`: the place can't be listened at, and nothing has changed (`not_begun`).
/// - `Accept`: a client couldn't be accepted, and the limits say to end then (`given_up`).
/// - `Unkept`: bytes of a client can't be kept. A gateway that keeps all bytes never causes it
///   (`keeps`).
/// - `Poll`: the system doesn't report events, or the time.
/// - `OutOfMemory`: memory ran out before the first client, and the sessions are unchanged
///   (`no_memory`).
pub fn serve_clients<R: Files<File = File> + Net + Clock, G: KeepsEvents + Drop>(
    rt: &R,
    alloc: Global,
    sessions: &mut Sessions<G>,
    place: Place<'_>,
    limits: Limits,
) -> Result<(), ServingFault>
    requires { sessions.old.clients ≡ replicate connections None }
    ensures serves { Serves limits result sessions.old sessions.new }
    ensures given_up { result ≡ Err ServingFault.Accept → limits.refusal ≡ Refusal.End }
    ensures keeps { G.keeps_all → result ≢ Err ServingFault.Unkept }
    ensures not_begun { result ≡ Err ServingFault.Listen → sessions.new ≡ sessions.old }
    ensures no_memory { result ≡ Err ServingFault.OutOfMemory → sessions.new ≡ sessions.old }
{
    law_acts_in_a_row();
    let mut listener = match Listener::bind(rt, alloc, place) {
        Ok(listener) => listener,
        Err(error) => return Err(fault_of(&error, ServingFault::Listen)),
    };
    let served = serve_at(rt, alloc, &mut listener, sessions, limits);
    listener.close(rt, place);
    served
}

/// Serves the clients of a listener.
fn serve_at<R: Net + Clock, G: KeepsEvents + Drop>(
    rt: &R,
    alloc: Global,
    listener: &mut Listener,
    sessions: &mut Sessions<G>,
    limits: Limits,
) -> Result<(), ServingFault>
    requires { sessions.old.clients ≡ replicate connections None }
    ensures serves { Serves limits result sessions.old sessions.new }
    ensures given_up { result ≡ Err ServingFault.Accept → limits.refusal ≡ Refusal.End }
    ensures keeps { G.keeps_all → result ≢ Err ServingFault.Unkept }
    ensures begun { result ≢ Err ServingFault.Listen }
    ensures no_memory { result ≡ Err ServingFault.OutOfMemory → sessions.new ≡ sessions.old }
{
    law_acts_in_a_row();
    match Server::new(rt, alloc, listener, limits) {
        Ok(server) => run(rt, listener, sessions, server),
        Err(error) => Err(fault_of(&error, ServingFault::Poll)),
    }
}

/// Runs a server to its end.
fn run<K: Clock, G: KeepsEvents + Drop>(
    clock: &K,
    listener: &Listener,
    sessions: &mut Sessions<G>,
    server: Server,
) -> Result<(), ServingFault>
    requires { Seated server.peers sessions.old }
    ensures serves { Serves server.limits result sessions.old sessions.new }
    ensures given_up { result ≡ Err ServingFault.Accept → server.limits.refusal ≡ Refusal.End }
    ensures keeps { G.keeps_all → server.is_unkept ≡ false → result ≢ Err ServingFault.Unkept }
    ensures begun { (result ≢ Err ServingFault.Listen) × (result ≢ Err ServingFault.OutOfMemory) }
{
    let mut server = server;
    server.run(clock, listener, sessions)
}

/// The fault of a system error: `OutOfMemory` if memory ran out, and otherwise `other`.
pub fn fault_of(error: &Error, other: ServingFault) -> ServingFault
    ensures memory { error_kind error.now ≡ ErrorKind.OutOfMemory → result ≡ ServingFault.OutOfMemory }
    ensures other { error_kind error.now ≢ ErrorKind.OutOfMemory → result ≡ other }
    ensures either { (result ≡ ServingFault.OutOfMemory) ⊎ (result ≡ other) }
{
    match error.kind() {
        ErrorKind::OutOfMemory => ServingFault::OutOfMemory,
        _ => other,
    }
}
