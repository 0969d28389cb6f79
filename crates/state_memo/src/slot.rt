//! The place in which a piece remembers an outcome.
ghost use Rattle.std.specs.Prelude.{◌≡◌};

use crate::outcome::Outcome;
use codec::AnyState;
use std::alloc::AllocError;

/// A place for an outcome in a piece.
#[derive(Drop)]
pub(crate) enum Slot {
    /// The place is free.
    Free,
    /// A state in which the piece may be entered, with the outcome from there.
    Known(AnyState, Outcome),
}

// The contents of the places that a piece doesn't use.
impl Default for Slot {
    fn default() -> Slot {
        Slot::Free
    }
}

impl Clone for Slot {
    ghost is_clone = { λ s copy. copy ≡ s };

    fn clone(&self) -> Result<Slot, AllocError> {
        Ok(match self {
            Slot::Free => Slot::Free,
            Slot::Known(entry, outcome) => Slot::Known(*entry, outcome.clone()?),
        })
    }
}
