//! The bytes of a trace's head, taken line by line.
ghost use Rattle.std.specs.Prelude.{◌≡◌, ◌+◌, ◌<◌, ◌≤◌, ◌^◌, ◌++◌, ℕ, List, true, false, IfOk, OnErr, length, take};
ghost use Rattle.connections.specs.Traffic.{Dropped, StandsWithin, known_of};
ghost use Rattle.desk.specs.Desk.{Office};
ghost use Rattle.gateway.specs.Head.{FinishesHead, HeadOn, HeadTakes, IsOver, ObeysOn, first_place, heading, may_head};
ghost use Rattle.gateway.specs.{Orders.StuckHead, Trace.is_comment, Trace.trace_limit};

use crate::traces::event::TRACE_LIMIT;
use crate::traces::head::{HeadFault, HeadParts, may_head};
use crate::traces::line::begins_comment;
use connections::{BegunLine, Gateway, Line, law_lines, line_end};
use std::alloc::Global;
use std::marker::Model;

/// The place in the head of a trace. It has the partial line, the bytes of the parts since the last
/// document, and the number of lines before. No byte of a comment is kept, so it may have any
/// length.
#[derive(Drop)]
pub(super) struct HeadReader {
    begun: BegunLine<TRACE_LIMIT>,
    /// Whether the partial line is a comment.
    comment: bool,
    parts: HeadParts,
    lines: u64,
    alloc: Global,
}

impl Model for HeadReader {
    ghost use Rattle.gateway.specs.Orders.{BeginsHead, begun_of, head_code};
    ghost use Rattle.gateway.specs.Head.{HeadPlace};

    ghost Value = { HeadPlace };

    ghost coded = { head_code };

    ghost view = { λ a. record { line = begun_of a.comment a.begun; parts = a.parts; lines = a.lines } };

    ghost invariant = { λ a. BeginsHead a.comment a.begun };
}

impl HeadReader {
    /// Creates the place at the first line.
    pub(super) fn start(alloc: Global) -> HeadReader
        ensures { result ≡ first_place }
    {
        HeadReader {
            begun: BegunLine::new(alloc),
            comment: false,
            parts: HeadParts::new(alloc),
            lines: 0,
            alloc,
        }
    }

    /// The number of lines that were obeyed.
    pub(super) fn lines(&self) -> u64
        ensures { result ≡ self.now.lines }
    {
        self.lines
    }

    /// Takes bytes up to and including the first line feed, or all of them. The line that they
    /// complete is obeyed; a comment is skipped. Returns the number of bytes; 0 if the head is over,
    /// or if there are none.
    ///
    /// # Errors
    ///
    /// The errors of `HeadParts::obey`. A line that is too long is reported as soon as that is
    /// known.
    pub(super) fn take(
        &mut self,
        gateway: &mut Gateway<'_>,
        bytes: &[u8],
    ) -> Result<usize, HeadFault>
        requires { self.old.lines + length bytes.now < 2 ^ 64 }
        ensures bound { IfOk result (λ n. n ≤ length bytes.now) }
        ensures over { IfOk result (λ n. 0 < length bytes.now → n ≡ 0 → IsOver self.old bytes.now) }
        ensures count { IfOk result (λ n. self.new.lines ≤ self.old.lines + n) }
        ensures kept { OnErr result (self.new.lines ≡ self.old.lines) }
        ensures lines { gateway.new.lines ≡ gateway.old.lines }
        ensures takes { HeadTakes result bytes.now gateway.old.office gateway.new.office self.old self.new }
    {
        if self.is_comment(bytes) {
            Ok(self.skip(bytes))
        } else if self.goes_on(bytes) {
            self.go_on(gateway, bytes)
        } else {
            Ok(0)
        }
    }

    /// Whether these bytes continue a comment, or start one.
    fn is_comment(&self, bytes: &[u8]) -> bool
        ensures { result ≡ is_comment (self.now.line ++ bytes.now) }
    {
        if self.begun.count() > 0 {
            false
        } else {
            self.comment || begins_comment(bytes)
        }
    }

    /// Whether these bytes continue a line of the head, or start one.
    fn goes_on(&self, bytes: &[u8]) -> bool
        ensures may { result ≡ may_head (self.now.line ++ bytes.now) }
        ensures over { result ≡ false → IsOver self.now bytes.now }
    {
        if self.comment || self.begun.count() > 0 {
            true
        } else {
            may_head(bytes)
        }
    }

    /// Skips bytes of a comment up to and including the first line feed, or all of them.
    fn skip(&mut self, bytes: &[u8]) -> usize
        requires room { self.old.lines + length bytes.now < 2 ^ 64 }
        requires comment { is_comment (self.old.line ++ bytes.now) ≡ true }
        ensures bound { result ≤ length bytes.now }
        ensures some { 0 < length bytes.now → 0 < result }
        ensures count { self.new.lines ≤ self.old.lines + result }
        ensures skips { (office : Office) → HeadOn (take result bytes.now) office office self.old self.new }
    {
        law_lines();
        match line_end(bytes) {
            Some(end) => {
                self.comment = false;
                self.lines = self.lines.saturating_add(1);
                end + 1
            }
            None => {
                self.comment = true;
                bytes.len()
            }
        }
    }

    /// Takes bytes of a line of the head that isn't a comment.
    fn go_on(&mut self, gateway: &mut Gateway<'_>, bytes: &[u8]) -> Result<usize, HeadFault>
        requires room { self.old.lines + length bytes.now < 2 ^ 64 }
        requires may { may_head (self.old.line ++ bytes.now) ≡ true }
        requires words { is_comment (self.old.line ++ bytes.now) ≡ false }
        ensures bound { IfOk result (λ n. n ≤ length bytes.now) }
        ensures some { IfOk result (λ n. 0 < length bytes.now → 0 < n) }
        ensures count { IfOk result (λ n. self.new.lines ≤ self.old.lines + n) }
        ensures kept { OnErr result (self.new.lines ≡ self.old.lines) }
        ensures lines { gateway.new.lines ≡ gateway.old.lines }
        ensures takes { HeadTakes result bytes.now gateway.old.office gateway.new.office self.old self.new }
    {
        law_lines();
        let (taken, line) = self.begun.take(bytes);
        let Some(line) = line else {
            return match self.begun.dropped() {
                Some(count) => {
                    self.begun = BegunLine::new(self.alloc);
                    Err(dropped(count))
                }
                None => Ok(taken),
            };
        };
        match obey_line(&mut self.parts, gateway, line) {
            Ok(()) => {}
            Err(fault) => return Err(fault),
        }
        self.lines += 1;
        Ok(taken)
    }

    /// Obeys the partial line at the end of the input, if there is one.
    pub(super) fn end(&mut self, gateway: &mut Gateway<'_>) -> Result<(), HeadFault>
        ensures lines { gateway.new.lines ≡ gateway.old.lines }
        ensures ends { FinishesHead result gateway.old.office gateway.new.office self.old self.new }
    {
        if self.comment {
            return Ok(());
        }
        if self.begun.count() == 0 {
            return Ok(());
        }
        let line = self.begun.end(b"");
        obey_line(&mut self.parts, gateway, line)
    }
}

/// Obeys a complete line of a head that isn't a comment.
fn obey_line(
    parts: &mut HeadParts,
    gateway: &mut Gateway<'_>,
    line: Line<'_>,
) -> Result<(), HeadFault>
    ensures lines { gateway.new.lines ≡ gateway.old.lines }
    ensures obeys { (it : List ℕ) → is_comment it ≡ false → StandsWithin trace_limit (known_of line.entry) it
        → ObeysOn result it (heading gateway.old.office parts.old) (heading gateway.new.office parts.new) }
{
    match line {
        Line::Whole(bytes) => parts.obey(gateway, bytes),
        Line::Joined(bytes) => parts.obey(gateway, &bytes),
        Line::Dropped(count) => Err(dropped(count)),
    }
}

/// The fault of a line of a head of which `count` bytes were dropped.
fn dropped(count: usize) -> HeadFault
    ensures { (line : List ℕ) → StandsWithin trace_limit (Dropped count) line → StuckHead result line }
{
    if count > TRACE_LIMIT {
        HeadFault::Bad
    } else {
        HeadFault::OutOfMemory
    }
}
