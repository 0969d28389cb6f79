//! The partial line of a connection, whose bytes are received in parts.
ghost use Rattle.std.specs.Prelude.{◌≡◌, ℕ, ◌+◌, ◌<◌, ◌^◌, List, [], ◌++◌, length, min, take, IsTrue, ◌↔◌, MatchOption, true, false, is_ok, if◌then◌else◌};
ghost use Rattle.connections.specs.Traffic.{Dropped, GoesOn, Received, StandsWithin, known_of, taken_of};
ghost use Rattle.connections.specs.Lines.{has_end, before_end};

use memchr::memchr;
use std::alloc::{AllocError, Global};
use std::marker::Model;
use std::mem;

/// The length above which a partial line reserves room for the longest line. So at most this many
/// bytes of a long line are moved.
const LONG: usize = 65_536;

/// A partial line: its bytes, at most `LIMIT`. If they were dropped, it is the number of bytes
/// received.
#[derive(Drop)]
pub struct BegunLine<const LIMIT: usize> {
    received: Vec<u8>,
    dropped: Option<usize>,
}

/// A complete line, without its line feed.
#[derive(Drop)]
pub enum Line<'a> {
    /// All of it was received at once.
    Whole(&'a [u8]),
    /// It was received in parts.
    Joined(Vec<u8>),
    /// Its bytes were dropped. The number of bytes, counted up to the first one over the limit.
    Dropped(usize),
}

impl<const LIMIT: usize> Model for BegunLine<LIMIT> {
    ghost use Rattle.std.specs.Prelude.{◌≡◌, ◌+◌, ◌<◌, ◌≤◌, ◌^◌, [], length, IsSome};
    ghost use Rattle.connections.specs.{Traffic.Partial, Traffic.partial_of, Codes.partial_code};

    ghost Value = { Partial };

    ghost coded = { partial_code };

    ghost view = { λ a. partial_of a.dropped a.received.items };

    ghost invariant = { λ a. (LIMIT + 1 < 2 ^ 64) × (length a.received.items ≤ LIMIT)
        × (IsSome a.dropped → a.received.items ≡ []) };
}

impl<const LIMIT: usize> BegunLine<LIMIT> {
    /// Creates a line of which no byte was received.
    pub fn new(alloc: Global) -> BegunLine<LIMIT>
        requires { LIMIT + 1 < 2 ^ 64 }
        ensures { result ≡ Received [] }
    {
        BegunLine {
            received: Vec::new(alloc),
            dropped: None,
        }
    }

    /// Takes bytes up to and including the first line feed, or all of them. A line feed completes
    /// the line. The call returns the number of bytes that it took (`count`) and the completed
    /// line, if there is one (`line`).
    pub fn take<'a>(&mut self, bytes: &'a [u8]) -> (usize, Option<Line<'a>>)
        ensures count { result.0 ≡ taken_of bytes.now }
        ensures line { MatchOption result.1
            ((has_end bytes.now ≡ false) × GoesOn LIMIT self.old bytes.now self.new)
            (λ line. (has_end bytes.now ≡ true) × (self.new ≡ Received []) × GoesOn LIMIT self.old (before_end bytes.now) (known_of line)) }
    {
        match line_end(bytes) {
            Some(end) => (end + 1, Some(self.end(&bytes[..end]))),
            None => {
                self.extend(bytes);
                (bytes.len(), None)
            }
        }
    }

    /// Completes the line with its last bytes, and starts the next one. It returns what is kept of
    /// the line with these bytes appended (`line`). The next line is empty (`fresh`). A line that
    /// was received at once isn't copied. Between lines no memory is held.
    pub fn end<'a>(&mut self, piece: &'a [u8]) -> Line<'a>
        ensures line { GoesOn LIMIT self.old piece.now (known_of result) }
        ensures fresh { self.new ≡ Received [] }
    {
        if self.is_fresh() {
            return Line::Whole(piece);
        }
        self.extend(piece);
        let alloc = *self.received.allocator();
        let received = mem::replace(&mut self.received, Vec::new(alloc));
        match self.dropped.take() {
            Some(count) => Line::Dropped(count),
            None => Line::Joined(received),
        }
    }

    /// Drops the bytes of the line; only their count is kept (`dropped`). It is still the same line
    /// (`line`).
    pub fn skip(&mut self)
        ensures line { GoesOn LIMIT self.old [] self.new }
        ensures dropped { (n : ℕ) × (self.new ≡ Dropped n) }
    {
        let count = self.count();
        self.drop_bytes(count);
    }

    /// Whether no byte of the line was received.
    fn is_fresh(&self) -> bool
        ensures { IsTrue result ↔ self.now ≡ Received [] }
    {
        self.received.is_empty() && self.dropped.is_none()
    }

    /// Adds bytes to the line. The bytes of a line are dropped if the line is over the limit, or if
    /// memory runs out.
    fn extend(&mut self, piece: &[u8])
        ensures { GoesOn LIMIT self.old piece.now self.new }
    {
        let count = self.count().saturating_add(piece.len()).min(LIMIT + 1);
        let drops = self.dropped.is_some() || count > LIMIT;
        if drops || append(&mut self.received, piece, LIMIT).is_err() {
            self.drop_bytes(count);
        }
    }

    /// Drops the bytes, `count` of them, and frees their memory.
    fn drop_bytes(&mut self, count: usize)
        ensures { self.new ≡ Dropped count }
    {
        *self = BegunLine {
            received: Vec::new(*self.received.allocator()),
            dropped: Some(count),
        };
    }

    /// The number of dropped bytes, counted up to the first one over the limit. `None` if the bytes
    /// are kept.
    pub fn dropped(&self) -> Option<usize>
        ensures { MatchOption result ((xs : List ℕ) × (self.now ≡ Received xs)) (λ count. self.now ≡ Dropped count) }
    {
        self.dropped
    }

    /// The number of bytes received, counted up to the first one over the limit.
    pub fn count(&self) -> usize
        ensures { (line : List ℕ) → StandsWithin LIMIT self.now line → result ≡ min (length line) (LIMIT + 1) }
    {
        match self.dropped {
            Some(count) => count,
            None => self.received.len(),
        }
    }
}

/// Appends bytes to a line that has at most `limit`. If there is no memory for the longest line,
/// the call reserves only what these bytes need.
fn append(line: &mut Vec<u8>, piece: &[u8], limit: usize) -> Result<(), AllocError>
    ensures { line.new.items ≡ (if is_ok result then line.old.items ++ piece.now else line.old.items) }
{
    let length = line.len().saturating_add(piece.len());
    if length > LONG && length > line.capacity() {
        let _ = line.reserve_exact(limit.saturating_sub(line.len()));
    }
    line.extend_from_slice(piece)
}

/// The index of the first line feed. The crates above use it to cut lines of their own.
pub fn line_end(bytes: &[u8]) -> Option<usize>
    ensures { MatchOption result (has_end bytes.now ≡ false)
        (λ k. (has_end bytes.now ≡ true) × (k < length bytes.now) × (before_end bytes.now ≡ take k bytes.now)) }
{
    memchr(b'\n', bytes)
}
