//! The sockets of the clients, by their numbers.
ghost use Rattle.std.specs.Prelude.{◌≡◌, ◌<◌, ◌≤◌, ℕ, None, Some, length, replicate, slice_set, true, false};
ghost use Rattle.std.specs.Option.{is_some};
ghost use Rattle.connections.specs.Events.{connections};
ghost use Rattle.mio.specs.Events.{items};
ghost use Rattle.sessions.specs.Sessions.{Hall};
ghost use Rattle.serving.specs.Noting.{noted_all, noted_at};
ghost use Rattle.serving.specs.Resting.{AreNone, Seated, peer_at};

use crate::peer::Peer;
use connections::CONNECTIONS;
use mio::Events;
use mio::event::Event;

/// The sockets of the connected clients.
#[derive(Drop)]
pub struct Peers {
    peers: [Option<Peer>; CONNECTIONS],
}

impl Peers {
    /// Creates the list, with no client connected.
    pub fn new() -> Peers
        ensures seated { (h : Hall) → h.clients ≡ replicate connections None → Seated result h }
        ensures none { (c : ℕ) → peer_at result c ≡ None }
    {
        Peers {
            peers: [
                None, None, None, None, None, None, None, None, //
                None, None, None, None, None, None, None, None,
            ],
        }
    }

    /// Whether no client is connected.
    pub fn are_none(&self) -> bool
        ensures none { result ≡ true → AreNone self.now }
        ensures some { result ≡ false → ¬ AreNone self.now }
    {
        for c in 0..CONNECTIONS {
            if self.peers[c].is_some() {
                return false;
            }
        }
        true
    }

    /// Whether there is a socket at a number.
    pub fn has(&self, c: u8) -> bool
        requires { c < connections }
        ensures some { result ≡ is_some (peer_at self.now c) }
        ensures none { result ≡ false → peer_at self.now c ≡ None }
    {
        self.peers[c as usize].is_some()
    }

    /// Takes out the socket at a number, if there is one.
    pub fn take(&mut self, c: u8) -> Option<Peer>
        requires { c < connections }
        ensures peer { result ≡ peer_at self.old c }
        ensures rest { self.new.peers ≡ slice_set self.old.peers c None }
        ensures count { length self.old.peers ≡ connections }
        ensures count_left { length self.new.peers ≡ connections }
    {
        self.peers[c as usize].take()
    }

    /// Puts a socket at a number. If there is no such number, the socket is closed.
    pub fn put(&mut self, c: u8, peer: Peer)
        ensures put { c < connections → self.new.peers ≡ slice_set self.old.peers c (Some peer) }
        ensures beyond { connections ≤ c → self.new.peers ≡ self.old.peers }
        ensures count { length self.old.peers ≡ connections }
    {
        if (c as usize) < CONNECTIONS {
            self.peers[c as usize] = Some(peer);
        }
    }

    /// Notes everything that the system reported about sockets.
    pub fn note_all(&mut self, events: &Events)
        ensures seats { (c : ℕ) → is_some (peer_at self.new c) ≡ is_some (peer_at self.old c) }
        ensures noted { (c : ℕ) → peer_at self.new c ≡ noted_all c (items events.now) (peer_at self.old c) }
    {
        for event in events.iter() {
            self.note(event);
        }
    }

    /// Notes what the system reported about one socket, whose number is the token.
    fn note(&mut self, event: &Event)
        ensures seats { (c : ℕ) → is_some (peer_at self.new c) ≡ is_some (peer_at self.old c) }
        ensures noted { (c : ℕ) → peer_at self.new c ≡ noted_at c (peer_at self.old c) event.now }
    {
        let token = event.token().0;
        if token >= CONNECTIONS {
            return;
        }
        let c = token as u8;
        if let Some(mut peer) = self.take(c) {
            peer.note(event);
            self.put(c, peer);
        }
    }
}
