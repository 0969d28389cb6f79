//! The player of a record.
ghost use Rattle.std.specs.Prelude.{◌≡◌, ◌+◌, ◌^◌, ◌<◌, ◌≤◌, [], true, false, length, Some, IfOk};
ghost use Rattle.connections.specs.Lines.{has_end};
ghost use Rattle.gateway.specs.Head.{heading, may_head};
ghost use Rattle.records.specs.Playing.{PlaysEventLine, PlaysFront, PlaysHeadLine, PlaysLine};

use connections::{Gateway, law_lines, line_end};
use devices::{MemFeed, MemOutlet};
use gateway::{HeadFault, HeadParts, TraceFault, law_traces_in_order, may_head, trace};
use line_protocol::ReplyLine;
use memchr::memmem;
use std::alloc::{AllocError, Global};
use std::marker::Model;

/// The reason why the rest of a record isn't played.
#[derive(Clone, Copy, PartialEq, Eq, Debug)]
pub enum PlayFault {
    /// The line isn't skipped and has no event. Or it is a line of the head that has no order, or
    /// one that can't be obeyed.
    BadLine,
    /// Memory ran out.
    OutOfMemory,
}

/// The place in a record: the partial line and the number of bytes before it. While the head isn't
/// over, it also has the head's parts.
#[derive(Drop)]
pub struct Player {
    line: Vec<u8>,
    whole: u64,
    head: Option<HeadParts>,
    /// The number of lines that were played. Contracts don't see it.
    lines: u64,
    alloc: Global,
}

impl Model for Player {
    ghost use Rattle.std.specs.Prelude.{◌≡◌, false};
    ghost use Rattle.connections.specs.Lines.{has_end};
    ghost use Rattle.records.specs.Codes.{place_code};
    ghost use Rattle.records.specs.Playing.{Place};

    ghost Value = { Place };

    ghost coded = { place_code };

    ghost view = { λ a. record { line = a.line.items; whole = a.whole; head = a.head } };

    ghost invariant = { λ a. has_end a.line.items ≡ false };
}

impl Player {
    /// Creates the player, at the first line (`line`) and byte 0 (`whole`). Its head is empty
    /// (`head`).
    pub fn new(alloc: Global) -> Player
        ensures line { result.line ≡ [] }
        ensures whole { result.whole ≡ 0 }
        ensures head { result.head ≡ Some [] }
    {
        Player {
            line: Vec::new(alloc),
            whole: 0,
            head: Some(HeadParts::new(alloc)),
            lines: 0,
            alloc,
        }
    }

    /// The number of bytes in the lines that were played, with their line feeds. Bytes after them
    /// were cut off before their line feed.
    pub fn whole(&self) -> u64
        ensures { result ≡ self.now.whole }
    {
        self.whole
    }

    /// The number of the partial line, counted from 1.
    pub fn number(&self) -> u64 {
        self.lines.saturating_add(1)
    }

    /// Takes bytes up to and including the first line feed, or all of them. The line that they
    /// complete is played without printing; a line of the head is obeyed (`plays`). The call
    /// returns the number of bytes that it took: at most all of them (`bound`), and at least one if
    /// there is one (`some`).
    ///
    /// # Errors
    ///
    /// - `BadLine`: the line isn't skipped and has no event, or it can't be obeyed.
    /// - `OutOfMemory`: memory ran out for the line or for a reply. In a record no reply reports
    ///   that.
    pub fn take(&mut self, gateway: &mut Gateway<'_>, bytes: &[u8]) -> Result<usize, PlayFault>
        requires { self.old.whole + length self.old.line + length bytes.now < 2 ^ 64 }
        ensures bound { IfOk result (λ n. n ≤ length bytes.now) }
        ensures some { IfOk result (λ n. 0 < length bytes.now → 0 < n) }
        ensures plays { PlaysFront result bytes.now gateway.old gateway.new self.old self.new }
    {
        law_lines();
        let Some(end) = line_end(bytes) else {
            return match self.line.extend_from_slice(bytes) {
                Ok(()) => Ok(bytes.len()),
                Err(AllocError) => Err(PlayFault::OutOfMemory),
            };
        };
        match self.line.extend_from_slice(&bytes[..end]) {
            Ok(()) => {}
            Err(AllocError) => return Err(PlayFault::OutOfMemory),
        }
        match play_next(self.alloc, gateway, &mut self.head, &self.line) {
            Ok(()) => {}
            Err(fault) => return Err(fault),
        }
        self.whole += self.line.len() as u64 + 1;
        self.lines = self.lines.saturating_add(1);
        self.line.clear();
        Ok(end + 1)
    }
}

/// Plays a line. While the head isn't over, a line of the head is obeyed instead.
fn play_next(
    alloc: Global,
    gateway: &mut Gateway<'_>,
    head: &mut Option<HeadParts>,
    line: &[u8],
) -> Result<(), PlayFault>
    requires { has_end line.now ≡ false }
    ensures { PlaysLine result head.old line.now gateway.old gateway.new head.new }
{
    if may_head(line) {
        if let Some(parts) = head {
            return obey(parts, gateway, line);
        }
    }
    *head = None;
    play_line(alloc, gateway, line)
}

/// Obeys a line of the head.
fn obey(parts: &mut HeadParts, gateway: &mut Gateway<'_>, line: &[u8]) -> Result<(), PlayFault>
    requires { may_head line.now ≡ true }
    ensures lines { gateway.new.lines ≡ gateway.old.lines }
    ensures obeys { PlaysHeadLine result line.now (heading gateway.old.office parts.old) (heading gateway.new.office parts.new) }
{
    match parts.obey(gateway, line) {
        Ok(()) => Ok(()),
        Err(HeadFault::Bad) => Err(PlayFault::BadLine),
        Err(HeadFault::OutOfMemory) => Err(PlayFault::OutOfMemory),
    }
}

/// Plays the event of a line, without its line feed.
fn play_line(alloc: Global, gateway: &mut Gateway<'_>, line: &[u8]) -> Result<(), PlayFault>
    requires { has_end line.now ≡ false }
    ensures { PlaysEventLine result line.now gateway.old gateway.new }
{
    law_lines();
    law_traces_in_order();
    let mut reader = MemFeed::new(line);
    let mut said = MemOutlet::new(alloc);
    match trace(alloc, gateway, &mut reader, &mut said) {
        Ok(()) => {}
        Err(TraceFault::BadLine(_)) => return Err(PlayFault::BadLine),
        Err(_) => return Err(PlayFault::OutOfMemory),
    }
    match memmem::find(said.bytes(), ReplyLine::out_of_memory().bytes()) {
        Some(_) => Err(PlayFault::OutOfMemory),
        None => Ok(()),
    }
}
