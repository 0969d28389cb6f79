//! The connections, by their numbers.
ghost use Rattle.std.specs.Prelude.{◌≡◌, ◌<◌, ◌↔◌, List, None, length, replicate, slice_set, IsTrue, IsSome};
ghost use Rattle.connections.specs.Events.{connections, at_number};

use std::marker::Model;

mod begun_line;

pub use begun_line::{BegunLine, Line, line_end};
use line_protocol::LINE_LIMIT;

/// The number of connections. They are numbered from 0.
pub const CONNECTIONS: usize = 16;

/// The partial line of a connection.
pub type Begun = BegunLine<LINE_LIMIT>;

/// The partial lines, one for each open connection. Contracts see their list.
#[derive(Drop)]
pub struct Connections {
    lines: [Option<Begun>; CONNECTIONS],
}

impl Model for Connections {
    ghost use Rattle.std.specs.Prelude.{◌≡◌, List, Option, length};
    ghost use Rattle.std.specs.Coded.{coded_list, coded_option};
    ghost use Rattle.connections.specs.{declared.connection.TheConstants.CONNECTIONS, Traffic.Partial, Codes.partial_code};

    ghost Value = { List (Option Partial) };

    ghost coded = { coded_list (coded_option partial_code) };

    ghost view = { λ a. a.lines };

    ghost invariant = { λ a. length a.lines ≡ CONNECTIONS };
}

impl Connections {
    /// Creates the list, with no connection open.
    pub fn new() -> Connections
        ensures { result ≡ replicate connections None }
    {
        Connections {
            lines: [
                None, None, None, None, None, None, None, None, //
                None, None, None, None, None, None, None, None,
            ],
        }
    }

    /// Whether a connection of this number exists.
    pub fn exists(&self, c: u8) -> bool
        ensures number { IsTrue result ↔ c < connections }
        ensures count { length self.now ≡ connections }
    {
        // Reading the field tells contracts how many lines there are.
        let _ = &self.lines;
        (c as usize) < CONNECTIONS
    }

    /// Whether a connection is open.
    pub fn is_open(&self, c: u8) -> bool
        requires { c < connections }
        ensures { IsTrue result ↔ IsSome (at_number self.now c) }
    {
        self.lines[c as usize].is_some()
    }

    /// Replaces the line of a connection; `None` closes it.
    pub fn put(&mut self, c: u8, line: Option<Begun>)
        requires { c < connections }
        ensures { self.new ≡ slice_set self.old c line }
    {
        self.lines[c as usize] = line;
    }

    /// Takes out the partial line of a connection, if the connection is open.
    pub fn take(&mut self, c: u8) -> Option<Begun>
        requires { c < connections }
        ensures line { result ≡ at_number self.old c }
        ensures rest { self.new ≡ slice_set self.old c None }
    {
        self.lines[c as usize].take()
    }
}
