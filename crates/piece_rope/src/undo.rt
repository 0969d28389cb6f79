//! Taking edits back, as their log has them.
ghost use Rattle.std.specs.Prelude.{◌≡◌};
ghost use Rattle.piece_rope.specs.Log.{GoBack, GoesBack, before_all, before_edit, room_of, tail_before};
ghost use Rattle.piece_rope.specs.Sizes.{CanJoin};

use crate::install::exchange;
use crate::log::LoggedEdit;
use crate::pieces::Pieces;
use state_memo::Outcome;

/// Takes the last edit back, without memory.
fn take_back_edit(pieces: &mut Pieces, tail: &mut Outcome, edit: LoggedEdit)
    requires old { CanJoin pieces.old.items }
    requires goes { GoesBack (room_of pieces.old) pieces.old.items edit }
    ensures items { pieces.new.items ≡ before_edit pieces.old.items edit }
    ensures room { room_of pieces.new ≡ room_of pieces.old }
    ensures tail { tail.new ≡ edit.tail }
{
    let LoggedEdit {
        first,
        put,
        taken,
        tail: end,
    } = edit;
    // There are fewer than 2^64 pieces.
    let _count = pieces.len();
    exchange(pieces, first, first + put, taken);
    *tail = end;
}

/// Takes all edits of a log back, the last one first, without memory.
pub(crate) fn take_back(pieces: &mut Pieces, tail: &mut Outcome, log: Vec<LoggedEdit>)
    requires old { CanJoin pieces.old.items }
    requires steps { GoBack (room_of pieces.old) pieces.old.items log.items }
    ensures pieces { pieces.new.items ≡ before_all pieces.old.items log.items }
    ensures tail { tail.new ≡ tail_before tail.old log.items }
{
    let mut log = log;
    'edits: while let Some(edit) = log.pop() {
        take_back_edit(pieces, tail, edit);
    }
}
