//! The clients of a gateway.
ghost use Rattle.std.specs.Prelude.{◌≡◌, ◌≢◌, ◌⊎◌, ℕ, ◌<◌, ◌≤◌, true, false, List, [], ◌∷◌, length, take};
ghost use Rattle.std.specs.Prelude.{None, Some, Err, replicate, IfOk, MatchOption, IsSome, option_map};
ghost use Rattle.connections.specs.Events.{connections, at_number};
ghost use Rattle.sessions.specs.Sessions.{AreTaken, Client, Hall, client_at, fresh_client, Joins, Sends, Asks, Gets, Leaves, Did, Present};
ghost use Rattle.sessions.specs.Advances.{Advanced, HasInput, Rests};

use crate::seat::Seat;
use crate::slots::Slots;
use connections::{CONNECTIONS, Event, KeepsEvents, Out, TakeFault, law_events};
use devices::{Arrival, Failed, READ_BUFFER, Wire};
use std::alloc::Global;
use std::marker::Model;

/// The reason why there is no seat for a client.
#[derive(Clone, Copy, PartialEq, Eq, Debug)]
pub enum JoinFault {
    /// Each of the places has a client.
    Full,
    /// Memory ran out.
    OutOfMemory,
}

/// The result of one step of a client.
#[derive(Clone, Copy, PartialEq, Eq, Debug)]
pub enum Advance {
    /// Something was done, and there may be more to do at once.
    Moved,
    /// Nothing can be done until its device has bytes or accepts some.
    Waits,
    /// Its device has reported the end, or failed.
    Over,
    /// The gateway can't keep the bytes received from it.
    Unkept,
}

/// A gateway and its clients. Contracts see the gateway's traffic. For each connected client they
/// see the received bytes that aren't taken yet, and the bytes that aren't sent to it yet.
pub struct Sessions<G: KeepsEvents + Drop> {
    gateway: G,
    slots: Slots,
    alloc: Global,
    /// The buffer of each read. All clients share it, so that it needn't be cleared for each read.
    buffer: [u8; READ_BUFFER],
}

impl<G: KeepsEvents + Drop> Model for Sessions<G> {
    ghost use Rattle.sessions.specs.Sessions.{Hall, Matches};
    ghost use Rattle.sessions.specs.Codes.{hall_code};

    ghost Value = { Hall };

    ghost coded = { hall_code };

    ghost view = { λ a. record { traffic = G.traffic a.gateway; clients = a.slots } };

    ghost invariant = { λ a. Matches (G.traffic a.gateway) a.slots };
}

// Written out: if it were derived, each crate above would prove again how every field is dropped.
impl<G: KeepsEvents + Drop> Drop for Sessions<G> {
    fn drop(self) {
        let Sessions {
            gateway: _,
            slots: _,
            alloc: _,
            buffer: _,
        } = self;
    }
}

impl<G: KeepsEvents + Drop> Sessions<G> {
    /// Creates the sessions of a gateway, with its traffic (`traffic`) and no client (`clients`).
    /// The gateway has no open connection.
    pub fn new(alloc: Global, gateway: G) -> Sessions<G>
        requires { (G.traffic gateway).lines ≡ replicate connections None }
        ensures traffic { result.traffic ≡ G.traffic gateway }
        ensures clients { result.clients ≡ replicate connections None }
    {
        Sessions {
            gateway,
            slots: Slots::new(),
            alloc,
            buffer: [0; READ_BUFFER],
        }
    }

    /// The gateway.
    pub fn gateway(&self) -> &G
        ensures { G.traffic result.now ≡ self.now.traffic }
    {
        &self.gateway
    }

    /// The lowest number below `places` that has no client.
    fn vacancy(&self, places: u8) -> Option<u8>
        ensures { MatchOption result (AreTaken places self.now)
            (λ c. (c < connections) × (client_at self.now c ≡ None) × (c < places) × AreTaken c self.now) }
    {
        for c in 0..CONNECTIONS as u8 {
            if c >= places {
                return None;
            }
            if self.slots.at(c).is_none() {
                return Some(c);
            }
        }
        None
    }

    /// Allocates a seat at the lowest number that has no client (`free`, `lowest`). The number is
    /// less than `places` (`below`). The sessions are unchanged.
    ///
    /// # Errors
    ///
    /// `Full` if each of the first `places` numbers has a client (`full`); `OutOfMemory` only if
    /// one of them is free (`memory`).
    pub fn seat(&self, places: u8) -> Result<Seat, JoinFault>
        ensures free { IfOk result (λ seat. client_at self.now seat ≡ None) }
        ensures below { IfOk result (λ seat. seat < places) }
        ensures lowest { IfOk result (λ seat. AreTaken seat self.now) }
        ensures full { result ≡ Err JoinFault.Full → AreTaken places self.now }
        ensures memory { result ≡ Err JoinFault.OutOfMemory → ¬ AreTaken places self.now }
    {
        let Some(c) = self.vacancy(places) else {
            return Err(JoinFault::Full);
        };
        match Seat::new(self.alloc, c) {
            Ok(seat) => Ok(seat),
            Err(_) => Err(JoinFault::OutOfMemory),
        }
    }

    /// Accepts a client at a seat whose number is still free (`joined`). The call can't fail. The
    /// new client has no bytes to take or send (`there`), and the other clients are unchanged
    /// (`others`).
    pub fn join(&mut self, seat: Seat)
        requires { client_at self.old seat ≡ None }
        ensures joined { Did self.old (Joins seat ∷ []) self.new }
        ensures there { client_at self.new seat ≡ Some fresh_client }
        ensures others { (c : ℕ) → c ≢ seat → client_at self.new c ≡ client_at self.old c }
    {
        let c = seat.number();
        match self.gateway.event(Event::Open(c)) {
            Ok(_) => {}
            Err(TakeFault::Refused(_)) => unreachable!(),
            Err(TakeFault::Unkept) => unreachable!(),
        }
        self.slots.put(c, Some(seat.session()));
    }

    /// Removes the client of this number, and closes its connection (`left`). Then the number is
    /// free (`gone`). The partial line and the bytes not sent yet are dropped. If there is no such
    /// client, nothing changes (`none`). The other clients are unchanged (`others`).
    pub fn leave(&mut self, c: u8)
        ensures gone { client_at self.new c ≡ None }
        ensures left { IsSome (client_at self.old c) → Did self.old (Leaves c ∷ []) self.new }
        ensures none { client_at self.old c ≡ None → self.new ≡ self.old }
        ensures others { (d : ℕ) → d ≢ c → client_at self.new d ≡ client_at self.old d }
    {
        if self.slots.at(c).is_none() {
            return;
        }
        match self.gateway.event(Event::Close(c)) {
            Ok(_) => {}
            Err(TakeFault::Refused(_)) => unreachable!(),
            Err(TakeFault::Unkept) => unreachable!(),
        }
        self.slots.put(c, None);
    }

    /// Takes one step of a client, the first of these that applies:
    ///
    /// - If bytes to the client aren't sent yet, it writes once.
    /// - If bytes received from it aren't taken yet, the gateway takes them, up to and including
    ///   the first line feed.
    /// - Otherwise it reads once.
    ///
    /// The step is at most one act of this client. The device's reads and writes are the bytes
    /// received from it and sent to it, and the other clients are unchanged (`step`). The result is
    /// one of these:
    ///
    /// - `Waits`: bytes to send are left and the device is full, or none are left and the device is
    ///   empty (`rests`).
    /// - `Over`: the device is over, or no client has this number (`over`).
    /// - `Unkept`: the client has bytes to take that the gateway can't keep (`unkept_input`), and
    ///   nothing has changed (`unkept`). A gateway that keeps all bytes never causes it (`kept`).
    pub fn advance<W: Wire>(&mut self, c: u8, wire: &mut W) -> Advance
        ensures step { Advanced result c self.old self.new (W.received wire.old) (W.received wire.new) (W.sent wire.old) (W.sent wire.new) }
        ensures rests { result ≡ Advance.Waits → Rests (client_at self.new c) (W.is_empty wire.new) (W.is_full wire.new) }
        ensures over { result ≡ Advance.Over → (client_at self.old c ≡ None) ⊎ W.is_over wire.new }
        ensures kept { G.keeps_all → result ≢ Advance.Unkept }
        ensures unkept { result ≡ Advance.Unkept → self.new ≡ self.old }
        ensures unkept_input { result ≡ Advance.Unkept → HasInput c self.old }
    {
        let Some(session) = self.slots.at(c) else {
            return Advance::Over;
        };
        if !session.unsent().is_empty() {
            return self.write_to(c, wire);
        }
        if !session.input().is_empty() {
            return if self.ask(c) {
                Advance::Moved
            } else {
                Advance::Unkept
            };
        }
        self.read_from(c, wire)
    }

    /// Writes once to a client.
    fn write_to<W: Wire>(&mut self, c: u8, wire: &mut W) -> Advance
        requires { (client : Client) × Present self.old c client × (client.unsent ≢ []) }
        ensures step { Advanced result c self.old self.new (W.received wire.old) (W.received wire.new) (W.sent wire.old) (W.sent wire.new) }
        ensures rests { result ≡ Advance.Waits → Rests (client_at self.new c) (W.is_empty wire.new) (W.is_full wire.new) }
        ensures over { result ≡ Advance.Over → (client_at self.old c ≡ None) ⊎ W.is_over wire.new }
        ensures kept { result ≢ Advance.Unkept }
    {
        let Some(mut session) = self.slots.take(c) else {
            unreachable!()
        };
        let advance = match wire.write(session.unsent()) {
            Ok(count) => {
                session.send(count);
                if count == 0 {
                    Advance::Waits
                } else {
                    Advance::Moved
                }
            }
            Err(Failed) => Advance::Over,
        };
        self.slots.put(c, Some(session));
        advance
    }

    /// Takes bytes received from a client, and returns whether it could. Bytes that can't be kept
    /// aren't taken.
    fn ask(&mut self, c: u8) -> bool
        requires { (input : List ℕ) × Present self.old c (record { input = input; unsent = [] }) }
        ensures asks { result ≡ true → Did self.old (Asks c ∷ []) self.new }
        ensures kept { G.keeps_all → result ≡ true }
        ensures unkept { result ≡ false → self.new ≡ self.old }
    {
        law_events();
        let Some(mut session) = self.slots.take(c) else {
            unreachable!()
        };
        match self.gateway.event(Event::Bytes(c, session.input())) {
            Ok(Out { taken, reply }) => session.take(taken, reply),
            Err(TakeFault::Refused(_)) => unreachable!(),
            Err(TakeFault::Unkept) => {
                self.slots.put(c, Some(session));
                return false;
            }
        }
        self.slots.put(c, Some(session));
        true
    }

    /// Reads once from a client.
    fn read_from<W: Wire>(&mut self, c: u8, wire: &mut W) -> Advance
        requires { Present self.old c fresh_client }
        ensures step { Advanced result c self.old self.new (W.received wire.old) (W.received wire.new) (W.sent wire.old) (W.sent wire.new) }
        ensures rests { result ≡ Advance.Waits → Rests (client_at self.new c) (W.is_empty wire.new) (W.is_full wire.new) }
        ensures over { result ≡ Advance.Over → (client_at self.old c ≡ None) ⊎ W.is_over wire.new }
        ensures kept { result ≢ Advance.Unkept }
    {
        let count = match wire.read(&mut self.buffer) {
            Ok(Arrival::Bytes(count)) => count,
            Ok(Arrival::NotYet) => return Advance::Waits,
            Ok(Arrival::End) => return Advance::Over,
            Err(Failed) => return Advance::Over,
        };
        let Some(mut session) = self.slots.take(c) else {
            unreachable!()
        };
        session.receive(&self.buffer[..count]);
        self.slots.put(c, Some(session));
        Advance::Moved
    }
}
