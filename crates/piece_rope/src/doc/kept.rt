//! Splices that keep the text: asked about, and made.
ghost use Rattle.std.specs.Prelude.{◌≡◌, ◌≢◌, ℕ, ◌+◌, ◌*◌, ◌≤◌, length, None, IfOk, OnOk, OnErr};
ghost use Rattle.std.specs.Str.{chars};
ghost use Rattle.piece_rope.specs.Edits.{KeptAnswers, is_kept, kept_fault};
ghost use Rattle.piece_rope.specs.{Chain.bytes_of, Document.document, Kept.IsKept, Kept.Resyncs, Sizes.longest, Splice.IsReady};

use crate::change::Change;
use crate::compare::keeps_text;
use crate::doc::Doc;
use crate::edit::PreparedEdit;
use crate::edited::Edited;
use crate::fault::DocFault;
use crate::install::install_edit;
use crate::lengths::whole_sum;
use crate::pieces::Pieces;
use crate::splice::prepare_splice;
use enc_names::Setting;
use index_loader::Indexes;
use state_memo::{Meter, Outcome};
use std::alloc::Global;

/// Prepares a splice of the document of these pieces that is to keep the text. Refused as
/// `Doc::splice_kept` is.
#[tactic(auto, unfolding(crate::specs::Edits::range_fault))]
fn prepare_kept<'a>(
    alloc: Global,
    indexes: &Indexes,
    setting: Setting,
    pieces: &'a Pieces,
    tail: &'a Outcome,
    at: u64,
    del: u64,
    ins: &[u8],
    i: u64,
    j: u64,
    text: &'a str,
    meter: &mut Meter,
) -> Result<PreparedEdit, DocFault>
    requires { IsKept indexes.now setting pieces.now.items tail.now }
    ensures ready { IfOk result (IsReady indexes.now setting pieces.now.items at del ins.now) }
    ensures faults { KeptAnswers (kept_fault (document indexes.now setting (bytes_of pieces.now.items)) at del ins.now i j)
        (is_kept (document indexes.now setting (bytes_of pieces.now.items)) at del ins.now i j (chars text.now)) result }
    ensures meter_least { meter.old ≤ meter.new }
    ensures meter_most { (m : ℕ) → Resyncs (document indexes.now setting (bytes_of pieces.now.items)) at del ins.now m
        → meter.new ≤ meter.old + (length ins.now + m + 4 * longest) }
    ensures meter_refused { kept_fault (document indexes.now setting (bytes_of pieces.now.items)) at del ins.now i j ≢ None → meter.new ≡ meter.old }
{
    if i > j || j > whole_sum(pieces, tail).scalars as u64 {
        return Err(DocFault::OutOfRange);
    }
    let change = Some(Change {
        pieces,
        tail,
        i,
        j,
        text,
    });
    let edit = prepare_splice(
        alloc, indexes, setting, pieces, tail, at, del, ins, change, meter,
    )?;
    let edited = Edited {
        pieces,
        edit: &edit,
    };
    if !keeps_text(edited, tail, i, j, text) {
        return Err(DocFault::NotKept);
    }
    Ok(edit)
}

impl<'i> Doc<'i> {
    ghost use Rattle.piece_rope.specs.Edits.{Faults, spliced_document};

    /// Whether `splice_kept` would make this splice (`kept`). It is refused for the same faults
    /// except `NotKept` (`faults`). It does the same work, and leaves the document unchanged. The
    /// meter never falls (`meter_least`), and counts at most the bytes that `splice` says
    /// (`meter_most`). If one of these faults refuses it, nothing is decoded (`meter_refused`).
    pub fn keeps(
        &self,
        at: u64,
        del: u64,
        ins: &[u8],
        i: u64,
        j: u64,
        text: &str,
        meter: &mut Meter,
    ) -> Result<bool, DocFault>
        ensures kept { IfOk result (λ kept. kept ≡ is_kept self.now at del ins.now i j (chars text.now)) }
        ensures faults { Faults (kept_fault self.now at del ins.now i j) result }
        ensures meter_least { meter.old ≤ meter.new }
        ensures meter_most { (m : ℕ) → Resyncs self.now at del ins.now m → meter.new ≤ meter.old + (length ins.now + m + 4 * longest) }
        ensures meter_refused { kept_fault self.now at del ins.now i j ≢ None → meter.new ≡ meter.old }
    {
        let (indexes, setting) = (self.indexes, self.setting);
        let (pieces, tail) = (&self.pieces, &self.tail);
        let prepared = prepare_kept(
            self.alloc, indexes, setting, pieces, tail, at, del, ins, i, j, text, meter,
        );
        match prepared {
            Ok(_) => Ok(true),
            Err(DocFault::NotKept) => Ok(false),
            Err(fault) => Err(fault),
        }
    }

    /// Makes a splice (`ok`) if the new text is the wanted one. That is the old text with the code
    /// points `i..j` replaced by `text`; any other is refused with `NotKept`. The splice is refused
    /// with `OutOfRange` also if `i` is above `j` or `j` is past the text, and with `NotKept` last
    /// (`faults`). A refusal leaves the document unchanged (`err`).
    ///
    /// It compares only the text that the edit can have changed, and the pieces that contain the ends
    /// of the range. If the range begins in the pieces that the edit touches, or after them, decoding
    /// stops at the first of the later pieces whose text isn't the wanted one. The meter never falls
    /// (`meter_least`), and counts at most the bytes that `splice` says (`meter_most`). If a fault
    /// other than `NotKept` or lack of memory refuses it, nothing is decoded (`meter_refused`).
    pub fn splice_kept(
        &mut self,
        at: u64,
        del: u64,
        ins: &[u8],
        i: u64,
        j: u64,
        text: &str,
        meter: &mut Meter,
    ) -> Result<(), DocFault>
        ensures ok { OnOk result (self.new ≡ spliced_document self.old at del ins.now) }
        ensures err { OnErr result (self.new ≡ self.old) }
        ensures faults { KeptAnswers (kept_fault self.old at del ins.now i j) (is_kept self.old at del ins.now i j (chars text.now)) result }
        ensures meter_least { meter.old ≤ meter.new }
        ensures meter_most { (m : ℕ) → Resyncs self.old at del ins.now m → meter.new ≤ meter.old + (length ins.now + m + 4 * longest) }
        ensures meter_refused { kept_fault self.old at del ins.now i j ≢ None → meter.new ≡ meter.old }
    {
        let (indexes, setting) = (self.indexes, self.setting);
        let (pieces, tail) = (&self.pieces, &self.tail);
        let edit = prepare_kept(
            self.alloc, indexes, setting, pieces, tail, at, del, ins, i, j, text, meter,
        )?;
        let log = &mut self.log;
        install_edit(self.alloc, &mut self.pieces, &mut self.tail, log, edit)?;
        Ok(())
    }
}
