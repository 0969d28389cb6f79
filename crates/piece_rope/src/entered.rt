//! Pieces with the states in which they are entered.
ghost use Rattle.std.specs.Prelude.{◌≡◌, ◌+◌, ◌-◌, ◌^◌, ◌≤◌, min, length, IfOk, OnOk};
ghost use Rattle.state_memo.specs.Decoding.{feed, any, AnyState};
ghost use Rattle.piece_rope.specs.{Chain.IsOwn, Chain.IsRenewed, Entry.here_of, Laws.IsLawful};

use crate::limits::room_in;
use state_memo::{AnyDecoder, AnyState, Meter, OutOfMemory, Outcome, Piece, Sum};
use std::alloc::Global;
use std::marker::Model;
use std::rc::Rc;
use sum_tree::{Summed, TryCopy};

/// A piece of a document and the state in which it is entered. It remembers what it decodes to from
/// there. Contracts see the piece and the state. Copies of a document share its pieces, so a piece
/// in a document never changes: an edit replaces it.
#[derive(Drop)]
pub struct Entered {
    piece: Rc<Piece>,
    entry: AnyState,
}

impl Model for Entered {
    ghost use Rattle.piece_rope.specs.Entry.{Entry, IsKnown};

    ghost Value = { Entry };

    ghost view = { λ e. record { piece = e.piece.value; entry = e.entry } };

    ghost invariant = { λ e. IsKnown e.piece.value e.entry };
}

impl Entered {
    /// Makes a piece of these bytes, entered in a state. Returns the state after it too.
    pub(crate) fn new(
        alloc: Global,
        decoder: &AnyDecoder<'_>,
        entry: AnyState,
        bytes: &[u8],
        meter: &mut Meter,
    ) -> Result<(Entered, AnyState), OutOfMemory>
        requires { IsLawful decoder.now }
        ensures bytes { IfOk result (λ r. r.0.piece.bytes ≡ bytes.now) }
        ensures entry { IfOk result (λ r. r.0.entry ≡ entry) }
        ensures own { IfOk result (λ r. IsOwn decoder.now r.0) }
        ensures exit { IfOk result (λ r. r.1 ≡ (feed (any decoder.now) entry bytes.now).state) }
        ensures meter { OnOk result (meter.new ≡ min (meter.old + length bytes.now) (2 ^ 64 - 1)) }
        ensures meter_most { meter.new ≤ meter.old + length bytes.now }
        ensures meter_least { meter.old ≤ meter.new }
    {
        let mut piece = Piece::new(alloc, bytes)?;
        let (sought, first) = (entry, entry);
        let outcome = piece.compute(decoder, sought, meter)?;
        let exit = outcome.exit();
        piece.install(first, outcome);
        let piece = Rc::new(alloc, piece)?;
        Ok((Entered { piece, entry }, exit))
    }

    /// Makes the piece entered in another state, and returns the state after it. This one is unchanged.
    /// If the piece remembers what it decodes to from there, it is shared. Otherwise the result is a
    /// piece of its own. It shares bytes and remembered outcomes with this one, as far as all have room
    /// together.
    pub(crate) fn renewed(
        &self,
        alloc: Global,
        decoder: &AnyDecoder<'_>,
        entry: AnyState,
        meter: &mut Meter,
    ) -> Result<(Entered, AnyState), OutOfMemory>
        requires lawful { IsLawful decoder.now }
        requires own { IsOwn decoder.now self.now }
        ensures renewed { IfOk result (λ r. IsRenewed self.now r.0) }
        ensures entry { IfOk result (λ r. r.0.entry ≡ entry) }
        ensures own { IfOk result (λ r. IsOwn decoder.now r.0) }
        ensures exit { IfOk result (λ r. r.1 ≡ (feed (any decoder.now) entry self.now.piece.bytes).state) }
        ensures meter_most { meter.new ≤ meter.old + length self.now.piece.bytes }
        ensures meter_least { meter.old ≤ meter.new }
    {
        let (sought, from, new, last) = (entry, entry, entry, self.entry);
        if let Some(outcome) = self.piece.peek(sought) {
            let exit = outcome.exit();
            let shared = self.piece.clone()?;
            return Ok((
                Entered {
                    piece: shared,
                    entry,
                },
                exit,
            ));
        }
        let mut piece = self.piece.copy()?;
        piece.move_first(last);
        let outcome = piece.compute(decoder, from, meter)?;
        let exit = outcome.exit();
        piece.install(new, outcome);
        piece.forget(room_in(self.bytes()));
        let piece = Rc::new(alloc, piece)?;
        Ok((Entered { piece, entry }, exit))
    }

    /// The outcome of the piece from the state in which it is entered. It has the piece's part of
    /// the text, its items, the state after it and its sum. The ends of items are counted from the
    /// piece's start.
    pub fn here(&self) -> &Outcome
        ensures { result.now ≡ here_of self.now }
    {
        match self.piece.peek(self.entry) {
            Some(outcome) => outcome,
            None => unreachable!(),
        }
    }

    /// The state in which it is entered.
    pub(crate) fn entry(&self) -> AnyState
        ensures { result ≡ self.now.entry }
    {
        self.entry
    }

    /// The piece's bytes.
    pub(crate) fn bytes(&self) -> &[u8]
        ensures { result.now ≡ self.now.piece.bytes }
    {
        self.piece.bytes()
    }
}

impl Summed<Sum> for Entered {
    ghost use Rattle.piece_rope.specs.Entry.{entry_sum};

    ghost sum_of = { entry_sum };

    fn sum(&self) -> Sum {
        self.here().sum()
    }
}

impl TryCopy for Entered {
    fn copy(&self) -> Result<Entered, OutOfMemory> {
        Ok(Entered {
            piece: self.piece.clone()?,
            entry: self.entry,
        })
    }
}
