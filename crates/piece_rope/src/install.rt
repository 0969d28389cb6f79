//! Putting what was prepared in place: memory is taken first, and then none.
ghost use Rattle.std.specs.Prelude.{◌≡◌, ◌+◌, ◌-◌, ◌≤◌, ◌++◌, length, take, drop, OnOk, OnErr};
ghost use Rattle.piece_rope.specs.Log.{IsSameLog, Logs, room_of};
ghost use Rattle.piece_rope.specs.{Chain.AreRenewed, Chain.renewed, Edit.edited, Sizes.CanJoin};
ghost use Rattle.sum_tree.specs.Refilled.{with_run};

use crate::edit::PreparedEdit;
use crate::entered::Entered;
use crate::log::{Log, log_edit};
use crate::pieces::{Pieces, put_piece, put_run, take_piece};
use state_memo::{OutOfMemory, Outcome};
use std::alloc::Global;

/// Takes the pieces `first..last` out.
fn remove_range(pieces: &mut Pieces, first: usize, last: usize)
    requires order { first ≤ last }
    requires within { last ≤ length pieces.old.items }
    requires old { CanJoin pieces.old.items }
    ensures items { pieces.new.items ≡ take first pieces.old.items ++ drop last pieces.old.items }
    ensures spare { pieces.new.spare ≡ pieces.old.spare + (last - first) }
{
    let mut left = last - first;
    'range: while left > 0 {
        take_piece(pieces, first);
        left -= 1;
    }
}

/// Puts pieces in at `first`.
fn insert_all(pieces: &mut Pieces, first: usize, fresh: Vec<Entered>)
    requires within { first ≤ length pieces.old.items }
    requires room { length fresh.items ≤ pieces.old.spare }
    requires join { CanJoin (take first pieces.old.items ++ (fresh.items ++ drop first pieces.old.items)) }
    ensures items { pieces.new.items ≡ take first pieces.old.items ++ (fresh.items ++ drop first pieces.old.items) }
    ensures spare { pieces.new.spare + length fresh.items ≡ pieces.old.spare }
{
    let mut fresh = fresh;
    'fresh: while let Some(piece) = fresh.pop() {
        put_piece(pieces, first, piece);
    }
}

/// Replaces the pieces at `first..last` by these pieces. As many as there are of both are replaced
/// in one walk. Only the surplus on either side is inserted or removed one by one.
pub(crate) fn exchange(pieces: &mut Pieces, first: usize, last: usize, fresh: Vec<Entered>)
    requires order { first ≤ last }
    requires within { last ≤ length pieces.old.items }
    requires room { length fresh.items ≤ pieces.old.spare + (last - first) }
    requires old { CanJoin pieces.old.items }
    requires new { CanJoin (with_run pieces.old.items first last fresh.items) }
    ensures items { pieces.new.items ≡ with_run pieces.old.items first last fresh.items }
    ensures room { room_of pieces.new ≡ room_of pieces.old }
{
    let mut fresh = fresh;
    let both = fresh.len().min(last - first);
    remove_range(pieces, first, last - both);
    put_run(pieces, first, first + both, &mut fresh);
    insert_all(pieces, first, fresh);
}

/// Replaces the pieces at `first..last` by new ones, and the next ones by renewed ones.
fn install(
    pieces: &mut Pieces,
    first: usize,
    last: usize,
    fresh: Vec<Entered>,
    renewals: Vec<Entered>,
)
    requires order { first ≤ last }
    requires within { last + length renewals.items ≤ length pieces.old.items }
    requires kept { AreRenewed (drop last pieces.old.items) renewals.items }
    requires room { length fresh.items ≤ pieces.old.spare }
    requires old { CanJoin pieces.old.items }
    requires new { CanJoin (take first pieces.old.items ++ (fresh.items ++ renewed (drop last pieces.old.items) renewals.items)) }
    ensures items { pieces.new.items ≡ take first pieces.old.items ++ (fresh.items ++ renewed (drop last pieces.old.items) renewals.items) }
    ensures room { room_of pieces.new ≡ room_of pieces.old }
{
    // There are fewer than 2^64 pieces.
    let _count = pieces.len();
    let end = last + renewals.len();
    exchange(pieces, last, end, renewals);
    exchange(pieces, first, last, fresh);
}

/// Makes an edit: it puts its pieces and its end in place. If there is a log, the log gets what
/// undoes the edit. If memory is refused, nothing changes.
pub(crate) fn install_edit(
    alloc: Global,
    pieces: &mut Pieces,
    tail: &mut Outcome,
    log: &mut Log,
    edit: PreparedEdit,
) -> Result<(), OutOfMemory>
    requires order { edit.first ≤ edit.last }
    requires within { edit.last + length edit.renewals.items ≤ length pieces.old.items }
    requires kept { AreRenewed (drop edit.last pieces.old.items) edit.renewals.items }
    requires old { CanJoin pieces.old.items }
    requires new { CanJoin (edited pieces.old.items edit) }
    ensures pieces { OnOk result (pieces.new.items ≡ edited pieces.old.items edit) }
    ensures tail { OnOk result (tail.new ≡ edit.tail) }
    ensures pieces_kept { OnErr result (pieces.new.items ≡ pieces.old.items) }
    ensures tail_kept { OnErr result (tail.new ≡ tail.old) }
    ensures room { room_of pieces.old ≤ room_of pieces.new }
    ensures log { OnOk result (Logs pieces.old.items tail.old edit log.old log.new) }
    ensures log_kept { OnErr result (IsSameLog log.old log.new) }
{
    pieces.reserve(edit.fresh.len())?;
    log_edit(alloc, log, pieces, tail, &edit)?;
    let PreparedEdit {
        first,
        last,
        fresh,
        renewals,
        tail: end,
    } = edit;
    install(pieces, first, last, fresh, renewals);
    *tail = end;
    Ok(())
}
