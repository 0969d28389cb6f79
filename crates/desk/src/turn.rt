//! The count of turns.
ghost use Rattle.std.specs.Prelude.{◌≡◌};
ghost use Rattle.desk.specs.Turn.{next_turn, turn_after};

use crate::max_number::MAX_NUMBER;
use crate::ops::Reply;

/// The count after a reply: one more if it reports an accepted open, edit or close.
pub(crate) fn turn_after(turn: u64, reply: &Reply) -> u64
    ensures { result ≡ turn_after turn reply.now }
{
    match reply {
        Reply::Edited(_) | Reply::Change(_) | Reply::Changes(_) | Reply::Closed { .. } => {
            next_turn(turn)
        }
        _ => turn,
    }
}

/// One more. After the greatest number of a line it begins at 0 again.
fn next_turn(turn: u64) -> u64
    ensures { result ≡ next_turn turn }
{
    if turn < MAX_NUMBER { turn + 1 } else { 0 }
}
