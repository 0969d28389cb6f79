//! Edits that can be taken back: what each of them took out, while an edit of several parts is
//! under way.
ghost use Rattle.std.specs.Prelude.{◌≡◌, ◌+◌, ◌-◌, ◌≤◌, length, take, drop, IfOk, OnOk, OnErr};
ghost use Rattle.piece_rope.specs.Log.{IsSameLog, Logs, TakesBack};
ghost use Rattle.piece_rope.specs.{Chain.AreRenewed, Edit.edited, Sizes.CanJoin};

use crate::edit::PreparedEdit;
use crate::entered::Entered;
use crate::pieces::Pieces;
use state_memo::{OutOfMemory, Outcome};
use std::alloc::{AllocError, Global};
use sum_tree::TryCopy;

/// The record of an edit that undoing it needs.
#[derive(Drop)]
pub(crate) struct LoggedEdit {
    /// The place of the first piece that it put in.
    pub first: usize,
    /// The number of pieces that it put in.
    pub put: usize,
    /// The pieces in their place before.
    pub taken: Vec<Entered>,
    /// The outcome of the end of the bytes before the edit.
    pub tail: Outcome,
}

/// The edits made so far of an edit of several parts, the oldest first. `None` if no such edit is
/// under way.
pub(crate) type Log = Option<Vec<LoggedEdit>>;

/// The pieces `first..last`, which are shared.
fn shared(
    alloc: Global,
    pieces: &Pieces,
    first: usize,
    last: usize,
) -> Result<Vec<Entered>, OutOfMemory>
    requires order { first ≤ last }
    requires within { last ≤ length pieces.now.items }
    ensures { IfOk result (λ v. v.items ≡ take (last - first) (drop first pieces.now.items)) }
{
    let mut shared = Vec::with_capacity(alloc, last - first)?;
    let mut index = first;
    'pieces: while index < last {
        let piece = pieces.get(index).copy()?;
        shared.push(piece).map_err(AllocError::from)?;
        index += 1;
    }
    Ok(shared)
}

/// The record of an edit that undoing it needs, before it is made.
fn entry_for(
    alloc: Global,
    pieces: &Pieces,
    tail: &Outcome,
    edit: &PreparedEdit,
) -> Result<LoggedEdit, OutOfMemory>
    requires order { edit.now.first ≤ edit.now.last }
    requires within { edit.now.last + length edit.now.renewals.items ≤ length pieces.now.items }
    requires kept { AreRenewed (drop edit.now.last pieces.now.items) edit.now.renewals.items }
    requires new { CanJoin (edited pieces.now.items edit.now) }
    ensures { IfOk result (TakesBack pieces.now.items tail.now edit.now) }
{
    // There are fewer than 2^64 pieces, now and after the edit.
    let _count = pieces.len();
    let behind = edit.last + edit.renewals.len();
    let taken = shared(alloc, pieces, edit.first, behind)?;
    let put = edit.fresh.len() + edit.renewals.len();
    let tail = tail.clone()?;
    Ok(LoggedEdit {
        first: edit.first,
        put,
        taken,
        tail,
    })
}

/// Notes an edit that is about to be made, if there is a log. If memory is refused, the log is
/// unchanged.
pub(crate) fn log_edit(
    alloc: Global,
    log: &mut Log,
    pieces: &Pieces,
    tail: &Outcome,
    edit: &PreparedEdit,
) -> Result<(), OutOfMemory>
    requires order { edit.now.first ≤ edit.now.last }
    requires within { edit.now.last + length edit.now.renewals.items ≤ length pieces.now.items }
    requires kept { AreRenewed (drop edit.now.last pieces.now.items) edit.now.renewals.items }
    requires new { CanJoin (edited pieces.now.items edit.now) }
    ensures ok { OnOk result (Logs pieces.now.items tail.now edit.now log.old log.new) }
    ensures err { OnErr result (IsSameLog log.old log.new) }
{
    if let Some(edits) = log {
        let entry = entry_for(alloc, pieces, tail, edit)?;
        edits.push(entry).map_err(AllocError::from)?;
    }
    Ok(())
}
