//! The pieces of a document in a tree of sums.
ghost use Rattle.std.specs.Prelude.{◌≡◌, ◌+◌, ◌-◌, ◌≤◌, ◌<◌, length, take, drop, IfOk, Some, slice_get};
ghost use Rattle.std.specs.List.{insert, remove};
ghost use Rattle.piece_rope.specs.{Sizes.CanJoin, Sizes.HasSizes, Chain.bytes_of};
ghost use Rattle.state_memo.specs.Decoding.{mark_of};
ghost use Rattle.sum_tree.specs.Refilled.{with_run};

use crate::entered::Entered;
use state_memo::{OutOfMemory, Sum};
use std::alloc::Global;
use sum_tree::{SumTree, law_sums_of_lists};

/// Pieces in order, with the sums of what they decode to.
pub(crate) type Pieces = SumTree<Entered, Sum>;

/// Inserts a piece before number `place`, or at the end, without memory.
pub(crate) fn put_piece(pieces: &mut Pieces, place: usize, piece: Entered)
    requires place { place ≤ length pieces.old.items }
    requires room { 0 < pieces.old.spare }
    requires join { CanJoin (insert pieces.old.items place piece) }
    ensures items { pieces.new.items ≡ insert pieces.old.items place piece }
    ensures spare { pieces.new.spare + 1 ≡ pieces.old.spare }
{
    law_sums_of_lists::<Entered, Sum>();
    pieces.insert(place, piece);
}

/// Takes piece number `place` out, without memory.
pub(crate) fn take_piece(pieces: &mut Pieces, place: usize) -> Entered
    requires place { place < length pieces.old.items }
    requires join { CanJoin (remove pieces.old.items place) }
    ensures piece { slice_get pieces.old.items place ≡ Some result }
    ensures items { pieces.new.items ≡ remove pieces.old.items place }
    ensures spare { pieces.new.spare ≡ pieces.old.spare + 1 }
{
    law_sums_of_lists::<Entered, Sum>();
    pieces.remove(place)
}

/// Replaces the pieces `from..to` by the last of these, without memory. It takes one walk.
pub(crate) fn put_run(pieces: &mut Pieces, from: usize, to: usize, run: &mut Vec<Entered>)
    requires order { from ≤ to }
    requires within { to ≤ length pieces.old.items }
    requires enough { to ≤ length run.old.items + from }
    requires join { CanJoin (with_run pieces.old.items from to (drop (length run.old.items - (to - from)) run.old.items)) }
    ensures items { pieces.new.items ≡ with_run pieces.old.items from to (drop (length run.old.items - (to - from)) run.old.items) }
    ensures rest { run.new.items ≡ take (length run.old.items - (to - from)) run.old.items }
    ensures spare { pieces.new.spare ≡ pieces.old.spare }
{
    law_sums_of_lists::<Entered, Sum>();
    pieces.refill(from, to, run);
}

/// A tree of these pieces, which it takes. Where memory is refused they stay where they are.
pub(crate) fn built(alloc: Global, pieces: &mut Vec<Entered>) -> Result<Pieces, OutOfMemory>
    requires { CanJoin pieces.old.items }
    ensures { IfOk result (λ tree. tree.items ≡ pieces.old.items) }
{
    law_sums_of_lists::<Entered, Sum>();
    SumTree::build(alloc, pieces)
}

/// The first bytes of all, as many as a byte order mark can have.
pub(crate) fn first_bytes(pieces: &Pieces) -> &[u8]
    requires { HasSizes pieces.now.items }
    ensures { mark_of result.now ≡ mark_of (bytes_of pieces.now.items) }
{
    if pieces.len() == 0 {
        return &[];
    }
    pieces.get(0).bytes()
}
