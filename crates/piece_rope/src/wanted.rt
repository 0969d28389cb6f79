//! The text that a change is to leave, in chunks.
ghost use Rattle.piece_rope.specs.Chunks.{ArePlaces};

use crate::pieces::Pieces;
use state_memo::Outcome;

/// The text that a change is to leave, in chunks. These are what the parts before number `from`
/// decode to, what part number `from` has before the range, and the new text. What part number `to`
/// has after the range, and what the later parts decode to, follow.
#[derive(Clone, Copy)]
pub(crate) struct Wanted<'a> {
    pub pieces: &'a Pieces,
    pub tail: &'a Outcome,
    pub from: usize,
    pub front: &'a [u8],
    pub text: &'a [u8],
    pub back: &'a [u8],
    pub to: usize,
    ghost places: { ArePlaces pieces.now.items from to },
}
