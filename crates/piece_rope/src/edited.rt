//! A document as an edit that was prepared would leave it.
ghost use Rattle.std.specs.Prelude.{◌≡◌, slice_get, option_copied};
ghost use Rattle.piece_rope.specs.Parts.{IsPrepared, parts_of, edited_parts, later_parts};

use crate::edit::PreparedEdit;
use crate::pieces::Pieces;
use state_memo::Outcome;

/// A document as an edit would leave it: the pieces as they are, and the edit that was prepared
/// over them.
#[derive(Clone, Copy)]
pub(crate) struct Edited<'a> {
    pub pieces: &'a Pieces,
    pub edit: &'a PreparedEdit,
    ghost prepared: { IsPrepared pieces.now.items edit.now },
}

/// Part number `place` of the document before the edit. It is what a piece decodes to or, after the
/// last piece, what the end of the bytes gives.
pub(crate) fn part_at<'a>(
    pieces: &'a Pieces,
    tail: &'a Outcome,
    place: usize,
) -> Option<&'a Outcome>
    ensures { option_copied result ≡ slice_get (parts_of pieces.now.items tail.now) place }
{
    let count = pieces.len();
    if place < count {
        return Some(pieces.get(place).here());
    }
    if place == count {
        return Some(tail);
    }
    None
}

impl<'a> Edited<'a> {
    /// Part number `place` of the document as the edit would leave it.
    pub(crate) fn part(&self, place: usize) -> Option<&'a Outcome>
        ensures { option_copied result ≡ slice_get (edited_parts self.now.pieces.now.items self.now.edit.now) place }
    {
        let (pieces, edit) = (self.pieces, self.edit);
        if place < edit.first {
            return Some(pieces.get(place).here());
        }
        let made = place - edit.first;
        if made < edit.fresh.len() {
            return Some(edit.fresh[made].here());
        }
        self.part_behind(made - edit.fresh.len())
    }

    /// The part at `place` after the new pieces.
    fn part_behind(&self, place: usize) -> Option<&'a Outcome>
        ensures { option_copied result ≡ slice_get (later_parts self.now.pieces.now.items self.now.edit.now) place }
    {
        let (pieces, edit) = (self.pieces, self.edit);
        let count = pieces.len();
        if place < edit.renewals.len() {
            return Some(edit.renewals[place].here());
        }
        if place > count - edit.last {
            return None;
        }
        part_at(pieces, &edit.tail, edit.last + place)
    }
}
