//! The sockets that were closed, for contracts.
ghost use Rattle.std.specs.Prelude.{◌≡◌, ◌∷◌};

use crate::peer::Peer;
use std::snapshot::Snapshot;

/// The sockets of the clients that left, each with its client's number. Each is in the state that
/// it had then. The list takes no memory: only contracts read it.
#[derive(Drop)]
pub enum Departures {
    /// No client has left.
    Nobody,
    /// The last client that left, after the earlier ones: its number and its socket.
    Then(Snapshot<Departures>, Snapshot<u8>, Snapshot<Peer>),
}

impl Departures {
    ghost use Rattle.serving.specs.Sockets.{closed};

    /// Adds one more client that leaves.
    pub fn push(&mut self, c: u8, peer: &Peer)
        ensures { closed self.new ≡ (c, peer.now) ∷ closed self.old }
    {
        *self = Departures::Then(Snapshot::of(self), Snapshot::of(&c), Snapshot::of(peer));
    }
}
