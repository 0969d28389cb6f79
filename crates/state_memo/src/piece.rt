//! Pieces.
ghost use Rattle.std.specs.Prelude.{◌≡◌, ◌+◌, ◌-◌, ◌^◌, ◌≤◌, ◌<◌, [], ◌∷◌, min, length, take, None, IfOk, OnOk, IfSome, IfNone, option_copied, is_some};
ghost use Rattle.state_memo.specs.Memo.{recalled, without, installed, entered, IsSlot};
ghost use Rattle.state_memo.specs.Outcome.{contents_of, outcome_of};

mod forget;

use crate::compute::compute_bytes;
use crate::outcome::Outcome;
use crate::slot::Slot;
use codec::{AnyDecoder, AnyState};
use decoder_core::{Meter, OutOfMemory};
use smallvec::SmallVec;
use std::alloc::Global;
use std::marker::Model;
use std::rc::Rc;

/// Some bytes of a document, and what they decode to from up to four states. The state that was
/// entered last is the first. Contracts see the bytes and the list.
pub struct Piece {
    bytes: Rc<Vec<u8>>,
    known: SmallVec<Slot, 4>,
}

impl Model for Piece {
    ghost use Rattle.std.specs.Prelude.{◌≤◌, length};
    ghost use Rattle.state_memo.specs.{Memo.Memo, Slots.known_in, Slots.AreFilled};

    ghost Value = { Memo };

    ghost view = { λ p. record { bytes = p.bytes.value.items; known = known_in p.known.items } };

    ghost invariant = { λ p. (length p.known.items ≤ 4) × (4 ≤ p.known.capacity) × AreFilled p.known.items };
}

// Written out: if it is derived, each crate above proves again what becomes of all that is dropped.
impl Drop for Piece {
    fn drop(self) {
        let Piece { bytes: _, known: _ } = self;
    }
}

impl Piece {
    /// A piece of these bytes that remembers nothing.
    pub fn new(alloc: Global, bytes: &[u8]) -> Result<Piece, OutOfMemory>
        ensures { IfOk result (λ p. p ≡ record { bytes = bytes.now; known = [] }) }
    {
        Ok(Piece {
            bytes: Rc::new(alloc, Vec::from_slice(alloc, bytes)?)?,
            known: SmallVec::new(alloc),
        })
    }

    /// A piece of the same bytes that remembers the same. It shares with this one what never
    /// changes: nothing is decoded, and neither bytes nor text nor items are copied.
    pub fn copy(&self) -> Result<Piece, OutOfMemory>
        ensures { IfOk result (λ p. p ≡ self.now) }
    {
        Ok(Piece {
            bytes: self.bytes.clone()?,
            known: self.known.clone()?,
        })
    }

    /// The bytes.
    pub fn bytes(&self) -> &[u8]
        ensures { result.now ≡ self.now.bytes }
    {
        self.bytes.as_slice()
    }

    /// The place of the outcome that is remembered for a state.
    fn place_of(&self, state: AnyState) -> Option<usize>
        ensures found { IfSome result (λ i. IsSlot self.now.known state i) }
        ensures none { IfNone result (recalled self.now.known state ≡ None) }
    {
        let known = self.known.as_slice();
        'known: for i in 0..known.len() {
            if let Slot::Known(entry, _) = &known[i]
                && *entry == state
            {
                return Some(i);
            }
        }
        None
    }

    /// The outcome that is remembered for a state. Nothing moves.
    pub fn peek(&self, state: AnyState) -> Option<&Outcome>
        ensures { option_copied result ≡ recalled self.now.known state }
    {
        let place = self.place_of(state)?;
        match &self.known.as_slice()[place] {
            Slot::Known(_, outcome) => Some(outcome),
            Slot::Free => None,
        }
    }

    /// Moves the outcome that is remembered for a state to the front (`moved`). Returns whether
    /// there is one (`found`).
    pub fn move_first(&mut self, state: AnyState) -> bool
        ensures found { result ≡ is_some (recalled self.old.known state) }
        ensures moved { self.new ≡ record { bytes = self.old.bytes; known = entered self.old.known state } }
    {
        let sought = state;
        let Some(place) = self.place_of(sought) else {
            return false;
        };
        match self.known.remove(place) {
            Slot::Known(_, outcome) => {
                self.put_first(state, outcome);
                true
            }
            Slot::Free => false,
        }
    }

    /// Decodes the piece from a state (`outcome`). The meter counts the piece's bytes (`meter`); if memory runs out, it
    /// never falls (`meter_least`) and counts at most all bytes (`meter_most`). Ends of items are kept in 16 bits, and
    /// numbers in 32. An end past 32,767 and 2^32 bytes of text, which no piece of a rope reaches, are refused as if
    /// memory ran out.
    pub fn compute(
        &self,
        decoder: &AnyDecoder<'_>,
        entry: AnyState,
        meter: &mut Meter,
    ) -> Result<Outcome, OutOfMemory>
        ensures outcome { IfOk result (λ o. contents_of o ≡ outcome_of decoder.now entry self.now.bytes) }
        ensures meter { OnOk result (meter.new ≡ min (meter.old + length self.now.bytes) (2 ^ 64 - 1)) }
        ensures meter_least { meter.old ≤ meter.new }
        ensures meter_most { meter.new ≤ min (meter.old + length self.now.bytes) (2 ^ 64 - 1) }
    {
        compute_bytes(&self.bytes, decoder, entry, meter)
    }

    /// Remembers an outcome for a state, first. A fifth drops the last. Takes no memory.
    pub fn install(&mut self, state: AnyState, outcome: Outcome)
        ensures { self.new ≡ record { bytes = self.old.bytes; known = installed self.old.known state outcome } }
    {
        let sought = state;
        self.make_room(sought);
        self.put_first(state, outcome);
    }

    /// Forgets what is remembered for a state, or the fourth outcome if nothing is.
    fn make_room(&mut self, state: AnyState)
        ensures { self.new ≡ record { bytes = self.old.bytes; known = take 3 (without self.old.known state) } }
    {
        match self.place_of(state) {
            Some(place) => {
                drop(self.known.remove(place));
            }
            None => self.known.truncate(3),
        }
    }

    /// Remembers an outcome for a state, first. There is room.
    fn put_first(&mut self, state: AnyState, outcome: Outcome)
        requires { length self.old.known < 4 }
        ensures { self.new ≡ record { bytes = self.old.bytes; known = record { entry = state; outcome = outcome } ∷ self.old.known } }
    {
        match self.known.insert(0, Slot::Known(state, outcome)) {
            Ok(()) => {}
            Err(_) => unreachable!(),
        }
    }
}
