//! Room for one more client.
ghost use Rattle.std.specs.Prelude.{◌≡◌, ◌<◌, IfOk};
ghost use Rattle.connections.specs.Events.{connections};
ghost use Rattle.sessions.specs.Sessions.{fresh_client};

use crate::session::Session;
use std::alloc::{AllocError, Global};
use std::marker::Model;

/// A number, and the memory that a client needs there. Contracts see the number.
#[derive(Drop)]
pub struct Seat {
    number: u8,
    session: Session,
}

impl Model for Seat {
    ghost use Rattle.std.specs.Prelude.{◌≡◌, ◌<◌, ℕ};
    ghost use Rattle.std.specs.Coded.{coded_ℕ};
    ghost use Rattle.connections.specs.Events.{connections};
    ghost use Rattle.sessions.specs.Sessions.{fresh_client};

    ghost Value = { ℕ };

    ghost coded = { coded_ℕ };

    ghost view = { λ a. a.number };

    ghost invariant = { λ a. (a.number < connections) × (a.session ≡ fresh_client) };
}

impl Seat {
    /// Creates the seat of a number.
    pub(crate) fn new(alloc: Global, number: u8) -> Result<Seat, AllocError>
        requires { number < connections }
        ensures { IfOk result (λ seat. seat ≡ number) }
    {
        let session = Session::new(alloc)?;
        Ok(Seat { number, session })
    }

    /// Its number (`is`). It is less than 16 (`small`).
    pub fn number(&self) -> u8
        ensures is { result ≡ self.now }
        ensures small { result < connections }
    {
        self.number
    }

    /// The client that takes the seat.
    pub(crate) fn session(self) -> Session
        ensures { result ≡ fresh_client }
    {
        let Seat { number: _, session } = self;
        session
    }
}
