//! The loop: which clients take a step, and when the server waits.
ghost use Rattle.std.specs.Prelude.{◌≡◌, ◌≢◌, ◌⊎◌, ◌+◌, ◌*◌, ◌<◌, ◌≤◌, ◌∷◌, List, [], ◌++◌, true, false, ℕ, Ok, Err, None, Some};
ghost use Rattle.std.specs.Prelude.{is_some, min, replicate, IfOk, IfSome, OnOk, OnErr, IsNone, IsOkUnless, IsSome};
ghost use Rattle.std.specs.Duration.{as_nanos};
ghost use Rattle.std.specs.List.{list_any};
ghost use Rattle.connections.specs.Events.{connections};
ghost use Rattle.mio.specs.Events.{items};
ghost use Rattle.sessions.specs.Advances.{HasInput};
ghost use Rattle.sessions.specs.Sessions.{Act, AreTaken, Hall, Joins, client_at};
ghost use Rattle.serving.specs.declared.server.TheConstants.{RETRY_SECONDS, STEPS};
ghost use Rattle.serving.specs.Acting.{Came, Carried, limits_behind};
ghost use Rattle.serving.specs.Listening.{access_of};
ghost use Rattle.serving.specs.Noting.{IsFresh, IsKept, IsNew, Noted, NothingNew, is_of};
ghost use Rattle.serving.specs.Polls.{at_once, nanos, waits_of};
ghost use Rattle.serving.specs.Resting.{AllRest, AreNone, Ends, Looked, NoMore, OthersKept, RestBelow};
ghost use Rattle.serving.specs.Resting.{RestsOn, RestsWatched, Seated, WaitsAtMost, WaitsFor, WaitsSome, peer_at};
ghost use Rattle.serving.specs.Sockets.{Carries, HadCause, HadCauses};
ghost use Rattle.serving.specs.Spins.{Asks, Finds, Waits};
ghost use Rattle.serving.specs.Turns.{Ran, Round, Stepped, StepsOf, Turned};
ghost use Rattle.serving.specs.declared.spin.TheConstants.{SPINS};

use crate::departures::Departures;
use crate::listener::Listener;
use crate::peer::Peer;
use crate::peers::Peers;
use crate::polls::Polls;
use crate::serve::ServingFault;
use crate::spin::{SPINS, Spin};
use connections::{CONNECTIONS, KeepsEvents};
use mio::{Events, Poll, Token};
use sessions::{Advance, JoinFault, Sessions, law_acts_in_a_row};
use std::alloc::Global;
use std::io;
use std::net::Net;
use std::time::{Clock, Duration, Instant};

/// The listener's token. The token of a client is its number.
const LISTENER: Token = Token(CONNECTIONS);

/// The most events reported at once: one for each client and one for the listener.
const EVENTS: usize = CONNECTIONS + 1;

/// The most steps of a client before the system is asked for events.
const STEPS: u32 = 4;

/// The number of seconds after which accepting a client is tried again.
const RETRY_SECONDS: u64 = 1;

/// The limits of a server: how many clients it has, and when it ends. Without a limit it runs until
/// a signal ends it.
#[derive(Clone, Copy)]
pub struct Limits {
    /// The most clients at once. There are never more than there are connections.
    pub places: u8,
    /// The number of clients to serve in all.
    pub clients: Option<u32>,
    /// The number of seconds to wait without a client.
    pub idle: Option<u32>,
    /// What follows if a client can't be accepted although a place is free.
    pub refusal: Refusal,
}

/// What follows if a client can't be accepted although a place is free. For example, no file
/// descriptor is free.
#[derive(Clone, Copy)]
pub enum Refusal {
    /// Accepting is tried again within a second.
    Retry,
    /// Serving ends.
    End,
}

/// The next action of the loop after a round.
enum Next {
    /// Asks for events, and waits for one, at most this long, or without a limit.
    Wait(Option<Duration>),
    /// Ends.
    End,
    /// Ends because a client can't be accepted.
    GiveUp,
}

/// The sockets of the connected clients, and what is known of waiting ones.
#[derive(Drop)]
pub struct Server {
    poll: Poll,
    events: Events,
    peers: Peers,
    /// Whether a client may wait at the listener.
    is_asked: bool,
    /// Whether a client couldn't be accepted although a place is free.
    is_refused: bool,
    /// Whether bytes received from a client can't be kept.
    is_unkept: bool,
    /// The rest of the limits: how many more clients may be accepted.
    limits: Limits,
    /// The time since which no client is connected, once this was checked.
    alone_since: Option<Instant>,
    /// The plan of spins before it sleeps.
    spin: Spin,
    /// The longest wait of each poll, for contracts alone.
    polls: Polls,
    /// The sockets that were closed, for contracts alone.
    left: Departures,
}

impl Server {
    /// Creates a server whose clients connect to this listener. None is connected yet.
    pub fn new<R: Net>(
        rt: &R,
        alloc: Global,
        listener: &mut Listener,
        limits: Limits,
    ) -> io::Result<Server>
        ensures seated { IfOk result (λ server. (h : Hall) → h.clients ≡ replicate connections None → Seated server.peers h) }
        ensures limits { IfOk result (λ server. server.limits ≡ limits) }
        ensures fresh { IfOk result IsNew }
    {
        let poll = Poll::new(rt)?;
        let events = Events::with_capacity(alloc, EVENTS)?;
        listener.watch(poll.registry(), LISTENER)?;
        Ok(Server {
            poll,
            events,
            peers: Peers::new(),
            is_asked: true,
            is_refused: false,
            is_unkept: false,
            limits,
            alone_since: None,
            spin: Spin::new(),
            polls: Polls::Empty,
            left: Departures::Nobody,
        })
    }

    /// Serves until the limits or a fault end it. It ends by its limits only if no client is
    /// connected. One fault is that received bytes can't be kept. The call gives up after 2^64 - 1
    /// waits.
    pub fn run<K: Clock, G: KeepsEvents + Drop>(
        &mut self,
        clock: &K,
        listener: &Listener,
        sessions: &mut Sessions<G>,
    ) -> Result<(), ServingFault>
        requires { Seated self.old.peers sessions.old }
        ensures ran { (acts : List Act) × Ran result acts self.old self.new sessions.old sessions.new }
        ensures seated { Seated self.new.peers sessions.new }
        ensures end { OnOk result (AreNone self.new.peers × Ends self.new.limits) }
        ensures given_up { result ≡ Err ServingFault.Accept → (self.new.is_refused ≡ true) × (self.new.limits.refusal ≡ Refusal.End) }
        ensures begun { (result ≢ Err ServingFault.Listen) × (result ≢ Err ServingFault.OutOfMemory) }
        ensures unkept { OnOk result (self.new.is_unkept ≡ false) }
        ensures lost { result ≡ Err ServingFault.Unkept → self.new.is_unkept ≡ true }
        ensures keeps { G.keeps_all → self.new.is_unkept ≡ self.old.is_unkept }
    {
        law_acts_in_a_row();
        for _ in 0..u64::MAX {
            match self.turn(clock, listener, sessions) {
                Ok(true) => {}
                Ok(false) => return Ok(()),
                Err(fault) => return Err(fault),
            }
        }
        Err(ServingFault::Poll)
    }

    /// Runs a round and, if serving continues, waits for events. Returns whether serving continues.
    fn turn<K: Clock, G: KeepsEvents + Drop>(
        &mut self,
        clock: &K,
        listener: &Listener,
        sessions: &mut Sessions<G>,
    ) -> Result<bool, ServingFault>
        requires { Seated self.old.peers sessions.old }
        ensures turned { (acts : List Act) × Turned result acts self.old self.new sessions.old sessions.new }
        ensures seated { Seated self.new.peers sessions.new }
        ensures end { result ≡ Ok false → AreNone self.new.peers × Ends self.new.limits }
        ensures alone { result ≡ Ok false → (self.new.limits.clients ≡ Some 0) ⊎ IsSome self.old.alone_since ⊎ (self.new.limits.idle ≡ Some 0) }
        ensures given_up { result ≡ Err ServingFault.Accept → (self.new.is_refused ≡ true) × (self.new.limits.refusal ≡ Refusal.End) }
        ensures begun { (result ≢ Err ServingFault.Listen) × (result ≢ Err ServingFault.OutOfMemory) }
        ensures unkept { OnOk result (self.new.is_unkept ≡ false) }
        ensures lost { result ≡ Err ServingFault.Unkept → self.new.is_unkept ≡ true }
        ensures keeps { G.keeps_all → self.new.is_unkept ≡ self.old.is_unkept }
    {
        let busy = self.round(listener, sessions);
        if self.is_unkept {
            return Err(ServingFault::Unkept);
        }
        match self.next(clock, busy)? {
            Next::Wait(most) => {
                self.wait(most)?;
                Ok(true)
            }
            Next::End => Ok(false),
            Next::GiveUp => Err(ServingFault::Accept),
        }
    }

    /// Accepts a waiting client and has each client take its steps. Returns whether more may be
    /// done at once; if so, something was done.
    fn round<G: KeepsEvents + Drop>(
        &mut self,
        listener: &Listener,
        sessions: &mut Sessions<G>,
    ) -> bool
        requires { Seated self.old.peers sessions.old }
        ensures round { (acts : List Act) × Round acts self.old self.new sessions.old sessions.new × (result ≡ true → acts ≢ []) }
        ensures rest { result ≡ false → AllRest self.new sessions.new }
        ensures keeps { G.keeps_all → self.new.is_unkept ≡ self.old.is_unkept }
        ensures since { result ≡ false → self.new.alone_since ≡ self.old.alone_since }
        ensures seated { Seated self.new.peers sessions.new }
    {
        law_acts_in_a_row();
        let came = self.let_in(listener, sessions);
        let moved = self.steps(sessions);
        came | moved
    }

    /// Has each client take its steps. Returns whether one may continue or has left.
    fn steps<G: KeepsEvents + Drop>(&mut self, sessions: &mut Sessions<G>) -> bool
        requires { Seated self.old.peers sessions.old }
        ensures steps { Stepped connections (result ≡ true) self.old self.new sessions.old sessions.new }
        ensures rest { result ≡ false → RestBelow connections self.new.peers sessions.new }
        ensures no_more { result ≡ false → NoMore self.old sessions.old → NoMore self.new sessions.new }
        ensures seated { Seated self.new.peers sessions.new }
        ensures limits { self.new.limits ≡ self.old.limits }
        ensures causes { HadCauses self.new sessions.old sessions.new }
        ensures unkept { self.old.is_unkept ≡ true → self.new.is_unkept ≡ true }
        ensures keeps { G.keeps_all → self.new.is_unkept ≡ self.old.is_unkept }
        ensures kept { self.new ≡ record self.old { peers = self.new.peers; is_unkept = self.new.is_unkept; left = self.new.left } }
    {
        law_acts_in_a_row();
        let mut moved = false;
        for c in 0..CONNECTIONS as u8 {
            moved |= self.step(sessions, c);
        }
        moved
    }

    /// Has a client take its steps. Returns whether it may continue or has left.
    fn step<G: KeepsEvents + Drop>(&mut self, sessions: &mut Sessions<G>, c: u8) -> bool
        requires small { c < connections }
        requires seated { Seated self.old.peers sessions.old }
        ensures steps { StepsOf c (result ≡ true) self.old self.new sessions.old sessions.new }
        ensures rests { result ≡ false → RestsWatched (client_at sessions.new c) (peer_at self.new.peers c) }
        ensures others { OthersKept c self.old.peers self.new.peers sessions.old sessions.new }
        ensures no_more { result ≡ false → NoMore self.old sessions.old → NoMore self.new sessions.new }
        ensures seated { Seated self.new.peers sessions.new }
        ensures limits { self.new.limits ≡ self.old.limits }
        ensures gone { client_at sessions.old c ≢ None → client_at sessions.new c ≡ None → HadCause c self.new }
        ensures caused { (d : ℕ) → HadCause d self.old → HadCause d self.new }
        ensures unkept { self.old.is_unkept ≡ true → self.new.is_unkept ≡ true }
        ensures keeps { G.keeps_all → self.new.is_unkept ≡ self.old.is_unkept }
        ensures kept { self.new ≡ record self.old { peers = self.new.peers; is_unkept = self.new.is_unkept; left = self.new.left } }
    {
        law_acts_in_a_row();
        // Most numbers have no client, and each command visits them all.
        if !self.peers.has(c) {
            return false;
        }
        let Some(mut peer) = self.peers.take(c) else {
            return false;
        };
        match advance_on(sessions, c, &mut peer) {
            Advance::Moved => {
                self.peers.put(c, peer);
                true
            }
            Advance::Waits => {
                if peer
                    .watch_room(self.poll.registry(), Token(c as usize))
                    .is_err()
                {
                    self.left.push(c, &peer);
                    sessions.leave(c);
                    return true;
                }
                self.peers.put(c, peer);
                false
            }
            Advance::Over => {
                self.left.push(c, &peer);
                sessions.leave(c);
                true
            }
            Advance::Unkept => {
                self.is_unkept = true;
                self.left.push(c, &peer);
                sessions.leave(c);
                true
            }
        }
    }

    /// Accepts a waiting client if a place is free, and returns whether one was accepted. The place
    /// is reserved first, so no client is accepted without a place.
    fn let_in<G: KeepsEvents + Drop>(
        &mut self,
        listener: &Listener,
        sessions: &mut Sessions<G>,
    ) -> bool
        requires { Seated self.old.peers sessions.old }
        ensures came { result ≡ true → (one : Came self.old.limits self.new.limits sessions.old sessions.new) × Carries (Joins one.c ∷ []) self.old self.new }
        ensures nobody { result ≡ false → (self.new.limits ≡ self.old.limits) × (sessions.new ≡ sessions.old) × Carries [] self.old self.new }
        ensures no_more { result ≡ false → NoMore self.new sessions.new }
        ensures asked { result ≡ true → self.new.is_asked ≡ true }
        ensures looked { Looked self.old self.new sessions.old }
        ensures refused { self.new.is_refused ≡ true → (result ≡ false) × (self.old.is_asked ≡ true) × (self.old.limits.clients ≢ Some 0)
            × ¬ AreTaken self.old.limits.places sessions.old }
        ensures alone { result ≡ true → self.new.alone_since ≡ None }
        ensures since { result ≡ false → self.new.alone_since ≡ self.old.alone_since }
        ensures seated { Seated self.new.peers sessions.new }
        ensures stay { (c : ℕ) → client_at sessions.old c ≢ None → client_at sessions.new c ≡ client_at sessions.old c }
        ensures kept { self.new ≡ record self.old {
          peers = self.new.peers;
          is_asked = self.new.is_asked;
          is_refused = self.new.is_refused;
          limits = self.new.limits;
          alone_since = self.new.alone_since;
        } }
    {
        self.is_refused = false;
        if !self.is_asked || matches!(self.limits.clients, Some(0)) {
            return false;
        }
        let seat = match sessions.seat(self.limits.places) {
            Ok(seat) => seat,
            Err(JoinFault::Full) => return false,
            Err(JoinFault::OutOfMemory) => {
                self.is_refused = true;
                return false;
            }
        };
        let c = seat.number();
        let Some(peer) = self.accepted(listener, c) else {
            return false;
        };
        self.peers.put(c, peer);
        sessions.join(seat);
        self.count();
        true
    }

    /// Accepts the next client and registers its socket. If no client waits, the system will report
    /// the next one. It won't if accepting or registering fails, for example without a free
    /// descriptor.
    fn accepted(&mut self, listener: &Listener, c: u8) -> Option<Peer>
        ensures none { IsNone result → (self.new ≡ record self.old { is_asked = false }) ⊎ (self.new ≡ record self.old { is_refused = true }) }
        ensures some { IsSome result → self.new ≡ self.old }
        ensures fresh { IfSome result IsFresh }
        ensures access { IfSome result (λ peer. peer.socket.access ≡ access_of listener.now) }
    {
        match listener.accept() {
            Ok(Some(peer)) => {
                let mut peer = peer;
                if peer.watch(self.poll.registry(), Token(c as usize)).is_ok() {
                    return Some(peer);
                }
                self.is_refused = true;
                None
            }
            Ok(None) => {
                self.is_asked = false;
                None
            }
            Err(_) => {
                self.is_refused = true;
                None
            }
        }
    }

    /// Counts a client that was accepted.
    fn count(&mut self)
        ensures { self.new ≡ record self.old { limits = limits_behind self.old.limits 1; alone_since = None } }
    {
        self.alone_since = None;
        if let Some(left) = self.limits.clients {
            self.limits.clients = Some(left.saturating_sub(1));
        }
    }

    /// Chooses the next action after a round. If something may still move, the server doesn't wait;
    /// otherwise it does. It ends by itself only if no client is connected.
    fn next<K: Clock>(&mut self, clock: &K, busy: bool) -> Result<Next, ServingFault>
        ensures awake { busy ≡ true → IfOk result (WaitsFor 0) }
        ensures asleep { busy ≡ false → IfOk result WaitsSome }
        ensures again { self.old.is_refused ≡ true → IfOk result (WaitsAtMost (RETRY_SECONDS * 1_000_000_000)) }
        ensures unhurried { busy ≡ false → self.old.is_refused ≡ false → ¬ AreNone self.old.peers → result ≡ Ok (Next.Wait None) }
        ensures patient { busy ≡ false → self.old.is_refused ≡ false → self.old.limits.clients ≢ Some 0 → self.old.limits.idle ≡ None
            → result ≡ Ok (Next.Wait None) }
        ensures end { result ≡ Ok Next.End → AreNone self.old.peers × Ends self.old.limits }
        ensures ends { busy ≡ false → self.old.is_refused ≡ false → AreNone self.old.peers → self.old.limits.clients ≡ Some 0 → result ≡ Ok Next.End }
        ensures alone { result ≡ Ok Next.End → (self.old.limits.clients ≡ Some 0) ⊎ IsSome self.old.alone_since ⊎ (self.old.limits.idle ≡ Some 0) }
        ensures gives_up { busy ≡ false → self.old.is_refused ≡ true → self.old.limits.refusal ≡ Refusal.End → result ≡ Ok Next.GiveUp }
        ensures given_up { result ≡ Ok Next.GiveUp → (self.old.is_refused ≡ true) × (self.old.limits.refusal ≡ Refusal.End) }
        ensures failed { OnErr result ((busy ≡ false) × IsSome self.old.limits.idle) }
        ensures fault { IsOkUnless result ServingFault.Poll }
        ensures retries { busy ≡ false → self.old.is_refused ≡ true → self.old.limits.refusal ≡ Refusal.Retry → (¬ AreNone self.old.peers)
            ⊎ (self.old.limits.clients ≢ Some 0) × (self.old.limits.idle ≡ None) → IfOk result (WaitsFor (RETRY_SECONDS * 1_000_000_000)) }
        ensures since { IsSome self.old.alone_since → self.new.alone_since ≡ self.old.alone_since }
        ensures quiet { (self.new.alone_since ≡ self.old.alone_since) ⊎ (busy ≡ false) × AreNone self.old.peers }
        ensures kept { self.new ≡ record self.old { alone_since = self.new.alone_since } }
    {
        if busy {
            return Ok(Next::Wait(Some(Duration::from_secs(0))));
        }
        if self.is_refused && matches!(self.limits.refusal, Refusal::End) {
            return Ok(Next::GiveUp);
        }
        if !self.peers.are_none() {
            return Ok(self.patience());
        }
        if matches!(self.limits.clients, Some(0)) {
            return Ok(Next::End);
        }
        match self.limits.idle {
            Some(idle) => self.next_alone(clock, Duration::from_secs(u64::from(idle))),
            None => Ok(self.patience()),
        }
    }

    /// Chooses the next action while no client is connected. After the time `idle` the server ends.
    /// The time is read from the clock, since a wait ends early if the process was stopped in it.
    fn next_alone<K: Clock>(&mut self, clock: &K, idle: Duration) -> Result<Next, ServingFault>
        ensures asleep { IfOk result WaitsSome }
        ensures again { self.old.is_refused ≡ true → IfOk result (WaitsAtMost (RETRY_SECONDS * 1_000_000_000)) }
        ensures most { IfOk result (WaitsAtMost (as_nanos idle)) }
        ensures first { self.old.alone_since ≡ None → self.old.is_refused ≡ false → 0 < as_nanos idle → IfOk result (WaitsFor (as_nanos idle)) }
        ensures hurried { self.old.alone_since ≡ None → self.old.is_refused ≡ true → 0 < as_nanos idle
            → IfOk result (WaitsFor (min (as_nanos idle) (RETRY_SECONDS * 1_000_000_000))) }
        ensures alone { result ≡ Ok Next.End → IsSome self.old.alone_since ⊎ (as_nanos idle ≡ 0) }
        ensures goes_on { result ≢ Ok Next.GiveUp }
        ensures fault { IsOkUnless result ServingFault.Poll }
        ensures since { IsSome self.old.alone_since → self.new.alone_since ≡ self.old.alone_since }
        ensures looked { OnOk result (IsSome self.new.alone_since) }
        ensures kept { self.new ≡ record self.old { alone_since = self.new.alone_since } }
    {
        let Ok(now) = Instant::now(clock) else {
            return Err(ServingFault::Poll);
        };
        let since = self.alone_since.unwrap_or(now);
        self.alone_since = Some(since);
        let rest = idle.saturating_sub(now.saturating_duration_since(since));
        if rest.is_zero() {
            return Ok(Next::End);
        }
        if self.is_refused {
            return Ok(Next::Wait(Some(shorter(rest, retry()))));
        }
        Ok(Next::Wait(Some(rest)))
    }

    /// Returns a wait until accepting is tried again. If it needn't be, the wait has no limit.
    fn patience(&self) -> Next
        ensures again { self.now.is_refused ≡ true → WaitsFor (RETRY_SECONDS * 1_000_000_000) result }
        ensures unhurried { self.now.is_refused ≡ false → result ≡ Next.Wait None }
    {
        if self.is_refused {
            Next::Wait(Some(retry()))
        } else {
            Next::Wait(None)
        }
    }

    /// Waits for events, at most the time `most`, and notes them. Before a wait without a limit it
    /// may spin. A client that was just answered often sends its next command sooner than a
    /// sleeping server would wake.
    fn wait(&mut self, most: Option<Duration>) -> Result<(), ServingFault>
        ensures waits { OnOk result (Waits (nanos most) self.old self.new) }
        ensures noted { OnOk result (Noted self.old self.new) }
        ensures fault { IsOkUnless result ServingFault.Poll }
        ensures kept { IsKept self.old self.new }
        ensures seated { (h : Hall) → Seated self.old.peers h → Seated self.new.peers h }
    {
        if most.is_some() || !self.spin.is_due() {
            return self.ask(most);
        }
        let found = self.spins()?;
        self.spin.note(found);
        if found {
            return Ok(());
        }
        self.ask(None)
    }

    /// Asks the system for events without waiting, at most `SPINS` times. Returns whether there
    /// were events.
    fn spins(&mut self) -> Result<bool, ServingFault>
        ensures found { result ≡ Ok true → Finds self.old self.new }
        ensures vain { result ≡ Ok false → waits_of self.new.polls ≡ waits_of self.old.polls ++ at_once SPINS }
        ensures noted { result ≡ Ok true → Noted self.old self.new }
        ensures nothing { result ≡ Ok false → NothingNew self.old self.new }
        ensures spin { self.new.spin ≡ self.old.spin }
        ensures fault { IsOkUnless result ServingFault.Poll }
        ensures kept { IsKept self.old self.new }
        ensures seated { (h : Hall) → Seated self.old.peers h → Seated self.new.peers h }
    {
        for _ in 0..SPINS {
            self.ask(Some(Duration::from_secs(0)))?;
            if !self.events.is_empty() {
                return Ok(true);
            }
        }
        Ok(false)
    }

    /// Asks the system for events, waits at most the time `most`, and notes them.
    fn ask(&mut self, most: Option<Duration>) -> Result<(), ServingFault>
        ensures asks { Asks (nanos most) self.old self.new }
        ensures noted { OnOk result (Noted self.old self.new) }
        ensures spin { self.new.spin ≡ self.old.spin }
        ensures fault { IsOkUnless result ServingFault.Poll }
        ensures kept { IsKept self.old self.new }
        ensures seated { (h : Hall) → Seated self.old.peers h → Seated self.new.peers h }
    {
        self.polls.push(most);
        if self.poll.poll(&mut self.events, most).is_err() {
            return Err(ServingFault::Poll);
        }
        self.is_asked |= has_listener(&self.events);
        self.peers.note_all(&self.events);
        Ok(())
    }
}

/// Has a client take at most `STEPS` steps, until it waits or is over. Returns the result of the
/// last one.
fn advance_on<G: KeepsEvents + Drop>(sessions: &mut Sessions<G>, c: u8, peer: &mut Peer) -> Advance
    ensures carried { Carried c STEPS (result ≡ Advance.Moved) sessions.old sessions.new peer.old peer.new }
    ensures rests { result ≡ Advance.Waits → RestsOn (client_at sessions.new c) (Some peer.new) }
    ensures keeps { G.keeps_all → result ≢ Advance.Unkept }
    ensures unkept { result ≡ Advance.Unkept → HasInput c sessions.new }
    ensures over { result ≡ Advance.Over → (is_some (client_at sessions.old c) ≡ false) ⊎ (peer.new.over ≡ true) }
    ensures stays { is_some (client_at sessions.new c) ≡ is_some (client_at sessions.old c) }
    ensures others { (d : ℕ) → d ≢ c → client_at sessions.new d ≡ client_at sessions.old d }
{
    law_acts_in_a_row();
    for _ in 0..STEPS - 1 {
        match sessions.advance(c, peer) {
            Advance::Moved => continue,
            advance => return advance,
        }
    }
    sessions.advance(c, peer)
}

/// Whether the system reported that clients wait at the listener.
fn has_listener(events: &Events) -> bool
    ensures { result ≡ list_any (is_of connections) (items events.now) }
{
    for event in events.iter() {
        if event.token() == LISTENER {
            return true;
        }
    }
    false
}

/// The time after which accepting a client is tried again.
fn retry() -> Duration
    ensures { as_nanos result ≡ RETRY_SECONDS * 1_000_000_000 }
{
    Duration::from_secs(RETRY_SECONDS)
}

/// The shorter of two durations.
fn shorter(a: Duration, b: Duration) -> Duration
    ensures first { as_nanos result ≤ as_nanos a }
    ensures second { as_nanos result ≤ as_nanos b }
    ensures some { 0 < as_nanos a → 0 < as_nanos b → 0 < as_nanos result }
    ensures is { as_nanos result ≡ min (as_nanos a) (as_nanos b) }
    ensures either { (result ≡ a) ⊎ (result ≡ b) }
{
    if a.as_nanos() < b.as_nanos() { a } else { b }
}
