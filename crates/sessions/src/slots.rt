//! The clients, by their numbers.
ghost use Rattle.std.specs.Prelude.{◌≡◌, ◌<◌, ℕ, List, None, Some, length, replicate, slice_set, MatchOption, IsSome, option_map};
ghost use Rattle.connections.specs.Events.{connections, at_number};

use crate::session::Session;
use connections::CONNECTIONS;
use std::marker::Model;

/// The client at each number, or none. Contracts see their list.
#[derive(Drop)]
pub struct Slots {
    sessions: [Option<Session>; CONNECTIONS],
}

impl Model for Slots {
    ghost use Rattle.std.specs.Prelude.{◌≡◌, List, Option, length};
    ghost use Rattle.std.specs.Coded.{coded_list, coded_option};
    ghost use Rattle.connections.specs.Events.{connections};
    ghost use Rattle.sessions.specs.Sessions.{Client};
    ghost use Rattle.sessions.specs.Codes.{client_code};

    ghost Value = { List (Option Client) };

    ghost coded = { coded_list (coded_option client_code) };

    ghost view = { λ a. a.sessions };

    ghost invariant = { λ a. length a.sessions ≡ connections };
}

impl Slots {
    /// Creates the list, with no client connected.
    pub fn new() -> Slots
        ensures { result ≡ replicate connections None }
    {
        Slots {
            sessions: [
                None, None, None, None, None, None, None, None, //
                None, None, None, None, None, None, None, None,
            ],
        }
    }

    /// The client at a number, if there is one.
    pub fn at(&self, c: u8) -> Option<&Session>
        ensures session { option_map (λ s. s.now) result ≡ at_number self.now c }
        ensures count { length self.now ≡ connections }
    {
        let _ = &self.sessions;
        self.sessions.get(c as usize)?.as_ref()
    }

    /// Puts a client at a number, or none.
    pub fn put(&mut self, c: u8, session: Option<Session>)
        requires { c < connections }
        ensures put { self.new ≡ slice_set self.old c session }
        ensures count { length self.old ≡ connections }
    {
        self.sessions[c as usize] = session;
    }

    /// Takes out the client at a number, if there is one.
    pub fn take(&mut self, c: u8) -> Option<Session>
        requires { c < connections }
        ensures session { result ≡ at_number self.old c }
        ensures rest { self.new ≡ slice_set self.old c None }
    {
        self.sessions[c as usize].take()
    }
}
