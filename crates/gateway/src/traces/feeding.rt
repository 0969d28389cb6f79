//! The bytes of a trace, taken line by line.
ghost use Rattle.std.specs.Prelude.{◌≡◌, ◌+◌, ◌<◌, ◌^◌, [], ◌++◌, ℕ, List, IfErr, false};
ghost use Rattle.connections.specs.Traffic.{Received, StandsWithin};
ghost use Rattle.gateway.specs.Trace.{is_comment, trace_limit};
ghost use Rattle.gateway.specs.TraceLines.{MayBe, PlaysLine, Stuck, line_write_failures};

use crate::traces::event::TRACE_LIMIT;
use crate::traces::fault::LineFault;
use crate::traces::line::{begins_comment, dropped, play_line};
use connections::{BegunLine, TakesEvents, law_lines};
use devices::{Outlet, Taker};
use std::alloc::Global;

/// The place in a trace: the partial line, and its number, counted from 1. Lines that are skipped
/// are counted too. No byte of a comment is kept, so it may have any length.
#[derive(Drop)]
pub(super) struct TracePlace {
    begun: BegunLine<TRACE_LIMIT>,
    /// Whether the partial line is a comment.
    comment: bool,
    pub(super) number: u64,
    alloc: Global,
}

impl TracePlace {
    /// Creates the place at the first line.
    pub(super) fn start(alloc: Global) -> TracePlace
        ensures begun { result.begun ≡ Received [] }
        ensures comment { result.comment ≡ false }
        ensures number { result.number ≡ 1 }
    {
        TracePlace {
            begun: BegunLine::new(alloc),
            comment: false,
            number: 1,
            alloc,
        }
    }

    /// Checks whether the line is a comment, if these are its first bytes.
    fn look(&mut self, bytes: &[u8])
        ensures begun { (line : List ℕ) → MayBe self.old.begun self.old.comment line → StandsWithin trace_limit self.new.begun line }
        ensures comment { (line : List ℕ) → MayBe self.old.begun self.old.comment line → self.new.comment ≡ is_comment (line ++ bytes.now) }
        ensures number { self.new.number ≡ self.old.number }
    {
        if self.begun.count() > 0 {
            return;
        }
        self.comment = begins_comment(bytes);
        if self.comment {
            self.begun.skip();
        }
    }

    /// Returns the fault that the partial line already has, if it has one.
    fn goes_on(&self) -> Result<(), LineFault>
        ensures stuck { IfErr result (λ fault. (line : List ℕ) → MayBe self.now.begun self.now.comment line → Stuck fault line) }
        ensures silent { line_write_failures result ≡ 0 }
    {
        match self.begun.dropped() {
            Some(count) => dropped(count, self.comment),
            None => Ok(()),
        }
    }

    /// Moves to the next line.
    fn next(&mut self)
        requires { self.old.number + 1 < 2 ^ 64 }
        ensures begun { self.new.begun ≡ self.old.begun }
        ensures comment { self.new.comment ≡ false }
        ensures number { self.new.number ≡ self.old.number + 1 }
    {
        self.comment = false;
        self.number += 1;
    }

    /// Plays the last line, which has no line feed.
    pub(super) fn finish<G: TakesEvents, W: Outlet>(
        &mut self,
        gateway: &mut G,
        writer: &mut W,
    ) -> Result<(), LineFault>
        ensures plays { (line : List ℕ) → MayBe self.old.begun self.old.comment line
            → PlaysLine result line (G.traffic gateway.old) (G.traffic gateway.new) (W.took writer.old).written (W.took writer.new).written }
        ensures failures { (W.took writer.new).failures ≡ (W.took writer.old).failures + line_write_failures result }
    {
        let line = self.begun.end(b"");
        play_line(self.alloc, gateway, writer, line, self.comment)
    }
}

// Bytes are taken up to and including the first line feed, or all of them, and a line that they
// complete is played. A line that can't be played is reported as soon as that is known.
impl<G: TakesEvents, W: Outlet> Taker<G, W> for TracePlace {
    ghost use Rattle.std.specs.Prelude.{◌-◌, ◌^◌};
    ghost use Rattle.gateway.specs.Tracing.{Fed, FedUntil};

    type Fault = LineFault;

    ghost ready = { λ s. Unit {0} };

    ghost room = { λ s. 2 ^ 64 - 1 - s.0.number };

    ghost takes = { λ bytes s t. Fed bytes (G.traffic s.1) (G.traffic t.1) (W.took s.2) (W.took t.2) s.0 t.0 };

    ghost stops = { λ f bytes s t. FedUntil f bytes (G.traffic s.1) (G.traffic t.1) (W.took s.2) (W.took t.2) s.0 t.0 };

    fn take(&mut self, gateway: &mut G, writer: &mut W, bytes: &[u8]) -> Result<usize, LineFault> {
        law_lines();
        self.look(bytes);
        let (taken, line) = self.begun.take(bytes);
        let Some(line) = line else {
            return match self.goes_on() {
                Ok(()) => Ok(taken),
                Err(fault) => Err(fault),
            };
        };
        match play_line(self.alloc, gateway, writer, line, self.comment) {
            Ok(()) => {}
            Err(fault) => return Err(fault),
        }
        self.next();
        Ok(taken)
    }
}
