//! The pieces after an edit, and what they become.
ghost use Rattle.std.specs.Prelude.{◌≡◌, ◌+◌, ◌≤◌, length, drop, IfOk, IfSome, IfNone};
ghost use Rattle.piece_rope.specs.Ahead.{Begins, Stops, Strays};
ghost use Rattle.piece_rope.specs.Chain.{Chain, AreRenewed, IsOwn, bytes_of, renewed, state_after};
ghost use Rattle.piece_rope.specs.Laws.{IsLawful};
ghost use Rattle.piece_rope.specs.Resync.{Passed, Behind, IsRenewal};

use crate::ahead::{Ahead, past};
use crate::entered::Entered;
use crate::fault::DocFault;
use crate::pieces::Pieces;
use state_memo::{AnyDecoder, AnyState, Meter, OutOfMemory};
use std::alloc::{AllocError, Global};

/// The new forms of the first pieces after an edit, and the last state. That is the state after all
/// pieces.
#[derive(Drop)]
pub(crate) struct Later {
    pub renewals: Vec<Entered>,
    pub exit: AnyState,
}

/// The piece entered in `state`, and the state after it. `None` if it was entered in `state` before:
/// then nothing is decoded.
#[tactic(auto, unfolding(crate::specs::Laws::IsLawful))]
fn renewal(
    alloc: Global,
    decoder: &AnyDecoder<'_>,
    piece: &Entered,
    state: AnyState,
    meter: &mut Meter,
) -> Result<Option<(Entered, AnyState)>, OutOfMemory>
    requires lawful { IsLawful decoder.now }
    requires own { IsOwn decoder.now piece.now }
    ensures none { IfOk result (λ r. IfNone r (piece.now.entry ≡ state)) }
    ensures some { IfOk result (λ r. IfSome r (λ to. IsRenewal decoder.now piece.now state to.0 to.1)) }
    ensures meter { piece.now.entry ≡ state → meter.new ≡ meter.old }
    ensures meter_most { meter.new ≤ meter.old + length piece.now.piece.bytes }
    ensures meter_least { meter.old ≤ meter.new }
{
    if piece.entry() == state {
        return Ok(None);
    }
    let renewed = piece.renewed(alloc, decoder, state, meter)?;
    Ok(Some(renewed))
}

/// Renews the pieces from number `first`, the first of which is now entered in `entry`. It stops at
/// a piece whose new state is the one in which it was entered. `end` is the state after the old
/// pieces. If a text is wanted, it is refused with `NotKept` after the first piece that decodes to
/// another.
pub(crate) fn renewals_from(
    alloc: Global,
    decoder: &AnyDecoder<'_>,
    pieces: &Pieces,
    first: usize,
    entry: AnyState,
    end: AnyState,
    ahead: Option<Ahead<'_>>,
    meter: &mut Meter,
) -> Result<Later, DocFault>
    requires lawful { IsLawful decoder.now }
    requires within { first ≤ length pieces.now.items }
    requires behind { Behind decoder.now (drop first pieces.now.items) end }
    ensures within { IfOk result (λ l. length l.renewals.items ≤ length (drop first pieces.now.items)) }
    ensures kept { IfOk result (λ l. AreRenewed (drop first pieces.now.items) l.renewals.items) }
    ensures chain { IfOk result (λ l. Chain decoder.now entry (renewed (drop first pieces.now.items) l.renewals.items)) }
    ensures exit { IfOk result (λ l. l.exit ≡ state_after decoder.now entry (drop first pieces.now.items)) }
    ensures stops { Stops (Begins decoder.now entry (bytes_of (drop first pieces.now.items)) (Strays ahead.entry)) result }
    ensures meter { Passed decoder.now entry (drop first pieces.now.items) meter.old meter.new }
    ensures meter_least { meter.old ≤ meter.new }
{
    let mut renewals = Vec::new(alloc);
    let mut state = entry;
    let mut index = first;
    let mut left = ahead;
    'pieces: while index < pieces.len() {
        let piece = pieces.get(index);
        let Some((renewed, exit)) = renewal(alloc, decoder, piece, state, meter)? else {
            return Ok(Later {
                renewals,
                exit: end,
            });
        };
        left = past(left, &renewed)?;
        renewals.push(renewed).map_err(AllocError::from)?;
        state = exit;
        index += 1;
    }
    Ok(Later {
        renewals,
        exit: state,
    })
}
