//! A splice of a document, checked and prepared before anything changes.
ghost use Rattle.std.specs.Prelude.{◌≡◌, ◌≢◌, ℕ, ◌+◌, ◌*◌, ◌≤◌, length, None, IfOk};
ghost use Rattle.piece_rope.specs.Ahead.{IsAnother, IsAsked, StopsBehind};
ghost use Rattle.piece_rope.specs.{Chain.bytes_of, Document.document, Document.text_of, Edits.splice_fault, Edits.spliced_document, Kept.IsKept, Kept.Resyncs};
ghost use Rattle.piece_rope.specs.{Sizes.longest, Splice.IsReady};

use crate::change::Change;
use crate::edit::{PreparedEdit, prepare};
use crate::fault::DocFault;
use crate::laws::law_decoder;
use crate::limits::checked_cut;
use crate::pieces::Pieces;
use enc_names::Setting;
use index_loader::Indexes;
use state_memo::{AnyDecoder, Meter, Outcome};
use std::alloc::Global;

/// Prepares a splice of the document of these pieces. Refused with `OutOfRange` and then with
/// `TooLarge`, before any byte is decoded. If it is to leave the text of a change, it may be refused
/// with `NotKept`, as soon as the decoded text differs.
pub(crate) fn prepare_splice(
    alloc: Global,
    indexes: &Indexes,
    setting: Setting,
    pieces: &Pieces,
    tail: &Outcome,
    at: u64,
    del: u64,
    ins: &[u8],
    change: Option<Change<'_>>,
    meter: &mut Meter,
) -> Result<PreparedEdit, DocFault>
    requires kept { IsKept indexes.now setting pieces.now.items tail.now }
    requires asked { IsAsked pieces.now.items change }
    ensures ready { IfOk result (IsReady indexes.now setting pieces.now.items at del ins.now) }
    ensures faults { StopsBehind (splice_fault (bytes_of pieces.now.items) at del ins.now)
        (IsAnother change.entry (text_of (spliced_document (document indexes.now setting (bytes_of pieces.now.items)) at del ins.now))) result }
    ensures meter_least { meter.old ≤ meter.new }
    ensures meter_most { (m : ℕ) → Resyncs (document indexes.now setting (bytes_of pieces.now.items)) at del ins.now m
        → meter.new ≤ meter.old + (length ins.now + m + 4 * longest) }
    ensures meter_refused { splice_fault (bytes_of pieces.now.items) at del ins.now ≢ None → meter.new ≡ meter.old }
{
    let (at, to) = checked_cut(pieces, at, del, ins)?;
    let decoder = AnyDecoder::under(indexes, setting).ok_or(DocFault::NoIndex)?;
    law_decoder(&decoder);
    let end = tail.exit();
    let edit = prepare(alloc, &decoder, pieces, end, at, to, ins, change, meter)?;
    Ok(edit)
}
