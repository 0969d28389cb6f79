//! Documents.
ghost use Rattle.std.specs.Prelude.{◌≡◌, ◌≢◌, ℕ, ◌+◌, ◌-◌, ◌*◌, ◌^◌, ◌≤◌, false, true, min, length};
ghost use Rattle.std.specs.Prelude.{map, take, drop, Some, None, IfOk, OnOk, OnErr, string_bytes};
ghost use Rattle.std.specs.Str.{chars, encode_utf8_all};
ghost use Rattle.index_loader.specs.Files.{has_files};
ghost use Rattle.state_memo.specs.Decoding.{Ascii, AnyDecoding, any_start, decoder_in, marks, total_width, utf16_width, utf8_width};
ghost use Rattle.piece_rope.specs.Made.{AreMade, IsMade, body_of, tail_of};
ghost use Rattle.piece_rope.specs.Outputs.{HasOutputs, HaveOutputs, output_at};
ghost use Rattle.piece_rope.specs.Sizes.{AreSized, AreCounted, longest, shortest};
ghost use Rattle.piece_rope.specs.{Chain.Chain, Chain.bytes_of, Entry.here_of, Room.all_beside, Room.room_in};

mod kept;
mod law_bounds;
mod several;

use crate::bytes::push_bytes;
use crate::entered::Entered;
use crate::errors::{errors_between, first_place};
use crate::fault::DocFault;
use crate::fresh::{Fresh, fresh_pieces};
use crate::install::install_edit;
use crate::laws::law_decoder;
use crate::lengths::{Lengths, whole_sum};
use crate::limits::{DOCUMENT_LIMIT, checked_part};
use crate::log::Log;
use crate::pieces::{Pieces, built, first_bytes};
use crate::splice::prepare_splice;
use crate::text::text_between;
use enc_names::{Bom, Encoding, Place, Setting};
use index_loader::Indexes;
use state_memo::{
    AnyDecoder, Meter, OutOfMemory, Outcome, Sum, finish_of, law_output_at_the_end, sniff, start_of,
};
use std::alloc::Global;
use std::marker::Model;
use sum_tree::Finder;

/// A document: its bytes, its setting and the indexes that it was opened with. The setting says how
/// the bytes are read. Every query is answered as by decoding the bytes from scratch (Encoding
/// Standard, "decode"). A byte order mark is looked for each time, unless the setting keeps marks.
/// Contracts see these three alone.
pub struct Doc<'i> {
    indexes: &'i Indexes,
    setting: Setting,
    pieces: Pieces,
    tail: Outcome,
    log: Log,
    alloc: Global,
}

impl<'i> Model for Doc<'i> {
    ghost use Rattle.piece_rope.specs.{Chain.bytes_of, Document.Document, Log.IsHeld, Log.earlier_of};

    ghost Value = { Document };

    ghost view = { λ d. record { indexes = d.indexes.now; setting = d.setting; bytes = bytes_of d.pieces.items; earlier = earlier_of d.pieces.items d.log } };

    ghost invariant = { λ d. IsHeld d.indexes.now d.setting d.pieces d.tail d.log };
}

// Written out: if it is derived, each crate above proves again what becomes of all that is dropped.
impl Drop for Doc<'_> {
    fn drop(self) {
        let Doc {
            indexes: _,
            setting: _,
            pieces: _,
            tail: _,
            log: _,
            alloc: _,
        } = self;
    }
}

impl<'i> Doc<'i> {
    ghost use Rattle.enc_names.specs.Settings.{setting_of};
    ghost use Rattle.state_memo.specs.Decoding.{mark_length};
    ghost use Rattle.piece_rope.specs.Document.{document, text_of, errors_of, first_error, decoded};
    ghost use Rattle.piece_rope.specs.Edits.{Faults, settled, spliced_document, open_fault, splice_fault, source_fault, text_fault, errors_fault};
    ghost use Rattle.piece_rope.specs.Kept.{Resyncs};

    /// Opens a document of these bytes (`ok`). The declared encoding is effective unless a byte order
    /// mark changes it; with `Keep` none does. Refused with `NoIndex` if an index file of the
    /// declared encoding isn't loaded, then with `TooLarge` above `DOCUMENT_LIMIT` bytes (`faults`).
    /// The meter counts the decoded bytes: those after the byte order mark, and perhaps those of the
    /// mark (`meter`). It never falls (`meter_least`), and counts at most all bytes (`meter_most`).
    /// If one of these faults refuses the open, nothing is decoded (`meter_refused`).
    #[tactic(auto, unfolding(crate::specs::Edits::open_fault))]
    pub fn open(
        alloc: Global,
        indexes: &'i Indexes,
        encoding: Encoding,
        bom: Bom,
        bytes: &[u8],
        meter: &mut Meter,
    ) -> Result<Doc<'i>, DocFault>
        ensures ok { IfOk result (λ doc. doc ≡ document indexes.now (setting_of encoding bom) bytes.now) }
        ensures faults { Faults (open_fault indexes.now encoding bytes.now) result }
        ensures meter { OnOk result (min (meter.old + (length bytes.now - mark_length (setting_of encoding bom) bytes.now)) (2 ^ 64 - 1) ≤ meter.new) }
        ensures meter_least { meter.old ≤ meter.new }
        ensures meter_most { meter.new ≤ meter.old + length bytes.now }
        ensures meter_refused { open_fault indexes.now encoding bytes.now ≢ None → meter.new ≡ meter.old }
    {
        let setting = Setting::new(encoding, bom);
        let decoder = AnyDecoder::under(indexes, setting).ok_or(DocFault::NoIndex)?;
        if bytes.len() > DOCUMENT_LIMIT {
            return Err(DocFault::TooLarge);
        }
        law_decoder(&decoder);
        let fresh = fresh_pieces(alloc, &decoder, start_of(&decoder), bytes, meter)?;
        let Fresh { mut pieces, exit } = fresh;
        let tail = finish_of(alloc, &decoder, exit)?;
        let pieces = built(alloc, &mut pieces)?;
        Ok(Doc {
            indexes,
            setting,
            pieces,
            tail,
            log: None,
            alloc,
        })
    }

    /// Copies the document. The two share what the pieces hold and remember: nothing is decoded,
    /// and neither bytes nor text are copied. An edit of one leaves the other unchanged. If an edit
    /// of several parts is under way, the copy has the parts made so far, and no way back.
    pub fn copy(&self) -> Result<Doc<'i>, OutOfMemory>
        ensures { IfOk result (λ doc. doc ≡ settled self.now) }
    {
        let pieces = self.pieces.copy(self.alloc)?;
        let tail = self.tail.clone()?;
        Ok(Doc {
            indexes: self.indexes,
            setting: self.setting,
            pieces,
            tail,
            log: None,
            alloc: self.alloc,
        })
    }

    /// Replaces the `del` bytes at `at` by `ins` (`ok`). Refused with `OutOfRange` if there are
    /// fewer bytes, then with `TooLarge` if there would be more than `DOCUMENT_LIMIT` bytes
    /// (`faults`). A refusal leaves the document unchanged (`err`).
    ///
    /// The meter counts the decoded bytes, also those of an edit that is refused for memory. It
    /// never falls (`meter_least`). At most it counts the new bytes, the bytes of four pieces, and
    /// the bytes after the edit until the decoder is again in its earlier state there
    /// (`meter_most`). If one of these faults refuses the edit, nothing is decoded
    /// (`meter_refused`).
    pub fn splice(
        &mut self,
        at: u64,
        del: u64,
        ins: &[u8],
        meter: &mut Meter,
    ) -> Result<(), DocFault>
        ensures ok { OnOk result (self.new ≡ spliced_document self.old at del ins.now) }
        ensures err { OnErr result (self.new ≡ self.old) }
        ensures faults { Faults (splice_fault self.old.bytes at del ins.now) result }
        ensures meter_least { meter.old ≤ meter.new }
        ensures meter_most { (m : ℕ) → Resyncs self.old at del ins.now m → meter.new ≤ meter.old + (length ins.now + m + 4 * longest) }
        ensures meter_refused { splice_fault self.old.bytes at del ins.now ≢ None → meter.new ≡ meter.old }
    {
        let (indexes, setting) = (self.indexes, self.setting);
        let (pieces, tail) = (&self.pieces, &self.tail);
        let edit = prepare_splice(
            self.alloc, indexes, setting, pieces, tail, at, del, ins, None, meter,
        )?;
        let log = &mut self.log;
        install_edit(self.alloc, &mut self.pieces, &mut self.tail, log, edit)?;
        Ok(())
    }

    /// The code points `i..j` of the text (`chars`), in UTF-8 (`ok`). Refused with `OutOfRange` if
    /// `i` is above `j` or `j` is past the text (`faults`).
    #[tactic(auto, unfolding(crate::specs::Edits::range_fault))]
    pub fn text(&self, i: u64, j: u64) -> Result<String, DocFault>
        ensures ok { IfOk result (λ text. string_bytes text ≡ encode_utf8_all (take (j - i) (drop i (text_of self.now)))) }
        ensures chars { IfOk result (λ text. chars (string_bytes text) ≡ take (j - i) (drop i (text_of self.now))) }
        ensures faults { Faults (text_fault self.now i j) result }
    {
        if i > j || j > self.lengths().scalars {
            return Err(DocFault::OutOfRange);
        }
        let text = text_between(self.alloc, &self.pieces, &self.tail, i, j)?;
        Ok(text)
    }

    /// The `len` bytes of the document that begin at `at`, unchanged (`ok`). Refused with
    /// `OutOfRange` if there are fewer (`faults`).
    pub fn source(&self, at: u64, len: u64) -> Result<Vec<u8>, DocFault>
        ensures ok { IfOk result (λ bytes. bytes.items ≡ take len (drop at self.now.bytes)) }
        ensures faults { Faults (source_fault self.now.bytes at len) result }
    {
        let (from, to) = checked_part(&self.pieces, at, len)?;
        let mut bytes = Vec::with_capacity(self.alloc, to - from)?;
        push_bytes(&mut bytes, &self.pieces, from, to)?;
        Ok(bytes)
    }

    /// The indexes that the document was opened with.
    pub fn indexes(&self) -> &'i Indexes
        ensures { result.now ≡ self.now.indexes }
    {
        self.indexes
    }

    /// The places of at most `max` errors, starting at number `from` (`ok`). Refused with
    /// `OutOfRange` if `from` is above their number (`faults`).
    #[tactic(auto, unfolding(crate::specs::Edits::number_fault))]
    pub fn errors(&self, from: u64, max: u64) -> Result<Vec<Place>, DocFault>
        ensures ok { IfOk result (λ places. places.items ≡ take max (drop from (errors_of self.now))) }
        ensures faults { Faults (errors_fault self.now from) result }
    {
        let total = self.lengths().errors;
        if from > total {
            return Err(DocFault::OutOfRange);
        }
        let to = from + max.min(total - from);
        let bom = self.bom_len();
        let places = errors_between(self.alloc, &self.pieces, &self.tail, bom, from, to)?;
        Ok(places)
    }

    /// The place of the first error, if there is one.
    pub fn fatal(&self) -> Option<Place>
        ensures { result ≡ first_error self.now }
    {
        first_place(&self.pieces, &self.tail, self.bom_len())
    }

    /// The encoding declared at the open.
    pub fn given(&self) -> Encoding
        ensures { result ≡ self.now.setting.given }
    {
        self.setting.given
    }

    /// The effective encoding: that of the byte order mark, or otherwise the declared one.
    #[tactic(auto, unfolding(crate::specs::Decode::decode))]
    pub fn encoding(&self) -> Encoding
        ensures { result ≡ (decoded self.now).encoding }
    {
        sniff(self.setting, first_bytes(&self.pieces)).encoding
    }

    /// The number of bytes of the byte order mark. It is 0 if there is none or marks are kept.
    #[tactic(auto, unfolding(crate::specs::Decode::decode))]
    pub fn bom_len(&self) -> u64
        ensures { result ≡ (decoded self.now).bom }
    {
        sniff(self.setting, first_bytes(&self.pieces)).bom_len
    }

    /// The lengths of the document and its text: bytes (`bytes`), code points (`scalars`), units
    /// (`utf16`). It has the text's length in UTF-8 too (`utf8`), and the numbers of errors
    /// (`errors`) and lines (`lines`).
    pub fn lengths(&self) -> Lengths
        ensures bytes { result.bytes ≡ length self.now.bytes }
        ensures scalars { result.scalars ≡ length (text_of self.now) }
        ensures utf16 { result.utf16 ≡ total_width utf16_width (text_of self.now) }
        ensures utf8 { result.utf8 ≡ total_width utf8_width (text_of self.now) }
        ensures errors { result.errors ≡ length (errors_of self.now) }
        ensures lines { result.lines ≡ marks false (text_of self.now) + 1 }
    {
        let sum = whole_sum(&self.pieces, &self.tail);
        Lengths {
            bytes: sum.bytes as u64,
            scalars: sum.scalars as u64,
            utf16: sum.utf16 as u64,
            utf8: sum.utf8 as u64,
            errors: sum.errors as u64,
            lines: sum.marks as u64 + 1,
        }
    }

    /// The pieces in order, found by the sums before them. They hold the document's items (`made`)
    /// and its bytes (`bytes`). Each piece is entered in the state after the one before it
    /// (`chain`). A piece has at least one byte and at most a piece's limit (`small`). If there are
    /// several pieces, each has at least the least length (`wide`). Each sum counts its piece's
    /// bytes (`counted`). The other outcomes that pieces remember take a bounded amount of memory
    /// (`lean`). The items have the output states of the definition (`outputs`).
    pub fn finder(&self) -> Finder<'_, Entered, Sum>
        ensures made { AreMade 0 (body_of self.now) (map here_of result) }
        ensures chain { (d : AnyDecoding) → decoder_in self.now.indexes self.now.setting ≡ Some d → Chain d (any_start d) result }
        ensures bytes { bytes_of result ≡ self.now.bytes }
        ensures small { AreSized 1 result }
        ensures wide { 2 ≤ length result → AreSized shortest result }
        ensures counted { AreCounted result }
        ensures lean { all_beside result ≤ room_in self.now.bytes }
        ensures outputs { HaveOutputs self.now 0 (map here_of result) }
    {
        law_output_at_the_end();
        self.pieces.finder()
    }

    /// The outcome of the end of the bytes, after all pieces. It has the items that the end gives
    /// (`made`), no bytes (`bytes`), and the output states of the definition (`outputs`).
    pub fn tail(&self) -> &Outcome
        ensures made { IsMade (length self.now.bytes) (tail_of self.now) result.now }
        ensures bytes { result.now.sum.bytes ≡ 0 }
        ensures outputs { HasOutputs self.now (length self.now.bytes) result.now.items }
    {
        law_output_at_the_end();
        &self.tail
    }

    /// States the laws of the effective encoding. The call does nothing.
    ///
    /// Its index files are loaded (`files`). Its byte order mark is in the bytes (`within`), and
    /// the output state after the mark is ASCII (`output`).
    pub fn law_in_force(&self)
        ensures files { has_files self.now.indexes (decoded self.now).encoding ≡ true }
        ensures within { (decoded self.now).bom ≤ length self.now.bytes }
        ensures output { output_at self.now (decoded self.now).bom ≡ Ascii }
    {
        let _pieces = &self.pieces;
        law_output_at_the_end();
    }
}
