//! Edits, prepared before anything changes.
ghost use Rattle.std.specs.Prelude.{◌≡◌, ◌+◌, ◌-◌, ◌*◌, ◌^◌, ◌≤◌, ◌<◌, ◌++◌, length, take, drop, IfOk};
ghost use Rattle.state_memo.specs.{Decoding.any_start, Outcome.contents_of, Outcome.ending_of};
ghost use Rattle.piece_rope.specs.Ahead.{Begins, IsAsked, IsUnlike, Stops};
ghost use Rattle.piece_rope.specs.Chain.{AreRenewed, bytes_of, state_after};
ghost use Rattle.piece_rope.specs.Edit.{IsRope, edited, exchanged, Metered};
ghost use Rattle.piece_rope.specs.{Laws.IsLawful, Sizes.AreCounted, Sizes.longest, Sizes.most_pieces, Window.Spans};

use crate::ahead::wanted_behind;
use crate::bytes::push_bytes;
use crate::change::Change;
use crate::entered::Entered;
use crate::fault::DocFault;
use crate::fresh::{Fresh, fresh_pieces};
use crate::later::{Later, renewals_from};
use crate::pieces::Pieces;
use crate::window::{Window, window_of};
use state_memo::{AnyDecoder, AnyState, Meter, OutOfMemory, Outcome, finish_of};
use std::alloc::Global;

/// New pieces for those at `first..last`, and what changes after them. That is what the first of
/// the later pieces become, and what the end of the bytes gives.
#[derive(Drop)]
pub(crate) struct PreparedEdit {
    pub first: usize,
    pub last: usize,
    pub fresh: Vec<Entered>,
    pub renewals: Vec<Entered>,
    pub tail: Outcome,
}

/// The bytes of the window, with others replacing `at..to`.
fn middle_bytes(
    alloc: Global,
    pieces: &Pieces,
    window: &Window,
    at: usize,
    to: usize,
    ins: &[u8],
) -> Result<Vec<u8>, OutOfMemory>
    requires counted { AreCounted pieces.now.items }
    requires spans { Spans pieces.now.items at to (2 * longest) window.now }
    requires order { at ≤ to }
    requires within { to ≤ length (bytes_of pieces.now.items) }
    ensures { IfOk result (λ v. v.items ≡ take (at - window.now.start) (drop window.now.start (bytes_of pieces.now.items))
        ++ (ins.now ++ take (window.now.end - to) (drop to (bytes_of pieces.now.items)))) }
{
    let room = (at - window.start)
        .saturating_add(ins.len())
        .saturating_add(window.end - to);
    let mut middle = Vec::with_capacity(alloc, room)?;
    push_bytes(&mut middle, pieces, window.start, at)?;
    middle.extend_from_slice(ins)?;
    push_bytes(&mut middle, pieces, to, window.end)?;
    Ok(middle)
}

/// The state after the first pieces. `end` is the state after all of them.
fn entry_of(decoder: &AnyDecoder<'_>, pieces: &Pieces, first: usize, end: AnyState) -> AnyState
    requires lawful { IsLawful decoder.now }
    requires within { first ≤ length pieces.now.items }
    requires rope { IsRope decoder.now pieces.now.items end }
    ensures { result ≡ state_after decoder.now (any_start decoder.now) (take first pieces.now.items) }
{
    if first < pieces.len() {
        return pieces.get(first).entry();
    }
    end
}

/// Prepares an edit: `ins` replaces the bytes `at..to`. `end` is the state after the pieces. If the
/// edit is to leave the text of a change, it may be refused with `NotKept`, as soon as the decoded
/// text differs.
pub(crate) fn prepare(
    alloc: Global,
    decoder: &AnyDecoder<'_>,
    pieces: &Pieces,
    end: AnyState,
    at: usize,
    to: usize,
    ins: &[u8],
    change: Option<Change<'_>>,
    meter: &mut Meter,
) -> Result<PreparedEdit, DocFault>
    requires lawful { IsLawful decoder.now }
    requires rope { IsRope decoder.now pieces.now.items end }
    requires counted { AreCounted pieces.now.items }
    requires size { length (bytes_of pieces.now.items) < 2 ^ 63 }
    requires order { at ≤ to }
    requires within { to ≤ length (bytes_of pieces.now.items) }
    requires few { length pieces.now.items ≤ most_pieces }
    requires asked { IsAsked pieces.now.items change }
    ensures order { IfOk result (λ e. e.first ≤ e.last) }
    ensures within { IfOk result (λ e. e.last + length e.renewals.items ≤ length pieces.now.items) }
    ensures kept { IfOk result (λ e. AreRenewed (drop e.last pieces.now.items) e.renewals.items) }
    ensures rope { IfOk result (λ e. IsRope decoder.now (edited pieces.now.items e) e.tail.exit) }
    ensures bytes { IfOk result (λ e. bytes_of (edited pieces.now.items e) ≡ exchanged (bytes_of pieces.now.items) at to ins.now) }
    ensures tail { IfOk result (λ e. contents_of e.tail ≡ ending_of decoder.now e.tail.exit) }
    ensures stops { Stops (Begins decoder.now (any_start decoder.now) (exchanged (bytes_of pieces.now.items) at to ins.now) (IsUnlike change.entry)) result }
    ensures meter { Metered decoder.now (bytes_of pieces.now.items) at to ins.now meter.old meter.new }
    ensures meter_least { meter.old ≤ meter.new }
{
    let (old_end, last_end) = (end, end);
    let window = window_of(pieces, at, to, ins.len());
    let middle = middle_bytes(alloc, pieces, &window, at, to, ins)?;
    let entry = entry_of(decoder, pieces, window.first, last_end);
    let fresh = fresh_pieces(alloc, decoder, entry, &middle, meter)?;
    let Fresh {
        pieces: made,
        exit: behind,
    } = fresh;
    let (first, last) = (window.first, window.last);
    let (sought, next) = (behind, behind);
    let ahead = wanted_behind(pieces, change, first, last, &made, sought)?;
    let later = renewals_from(alloc, decoder, pieces, last, next, old_end, ahead, meter)?;
    let Later { renewals, exit } = later;
    let tail = finish_of(alloc, decoder, exit)?;
    Ok(PreparedEdit {
        first,
        last,
        fresh: made,
        renewals,
        tail,
    })
}
