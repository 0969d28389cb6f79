//! A check under way.
ghost use Rattle.std.specs.Prelude.{◌≡◌, ℕ, ◌+◌, ◌^◌, ◌<◌, pos, ◌-ℤ◌, List, [], ◌++◌, take, length, FitsSigned, IfOk, IfSome, OnOk, is_some};
ghost use Rattle.std.specs.Int.{w64};
ghost use Rattle.enc_names.specs.declared.setting.Setting.{Setting};
ghost use Rattle.index_loader.specs.Files.{Files, has_files};
ghost use Rattle.decoder_core.specs.Queue.{feed, run};
ghost use Rattle.codec.specs.Any.{any};
ghost use Rattle.streams.specs.Checks.{Checked, Checking, ChecksPart, EndsCheck, IsPart, IsRow, Names, RowOf, added, gone_on};
ghost use Rattle.streams.specs.{Gathering.with_errors, Heads.head_bytes};
ghost use Rattle.streams.specs.Finding.{marked};

use crate::counts::{Counts, more};
use crate::decoding::{Part, decode_part};
use crate::head::Head;
use crate::part_text::{Decoded, PartText};
use crate::placing::Placing;
use crate::row::{Found, Row};
use codec::{AnyDecoder, AnyState, Sniffed};
use decoder_core::{Decoder, Ended, Handler, OutOfMemory, Step, law_one_run, meter, run_piece};
use enc_names::Setting;
use index_loader::Indexes;
use std::alloc::{AllocError, Global};
use std::marker::Model;

/// A check after some bytes: its decoder, and what the bytes have so far.
#[derive(Drop)]
pub(crate) struct Checker<'i> {
    alloc: Global,
    decoder: AnyDecoder<'i>,
    setting: Setting,
    state: AnyState,
    head: Head,
    bytes: u64,
    end: u64,
    counts: Counts,
    errors: u64,
    placing: Placing,
}

impl<'i> Model for Checker<'i> {
    ghost Value = { Checking };

    ghost view = { λ c. record {
      decoder = c.decoder;
      setting = c.setting;
      state = c.state;
      head = c.head;
      bytes = c.bytes;
      end = c.end;
      counts = c.counts;
      errors = c.errors;
      most = c.placing.most;
      found = c.placing.found;
    } };
}

impl<'i> Checker<'i> {
    /// A check before the first byte, which finds the places of `most` errors. `None` if an index file of the
    /// encoding is missing.
    pub(crate) fn new(
        alloc: Global,
        indexes: &'i Indexes,
        setting: Setting,
        most: usize,
    ) -> Option<Checker<'i>>
        ensures there { is_some result ≡ has_files indexes.now setting.given }
        ensures starts { IfSome result (Checked indexes.now setting most []) }
    {
        let Some(decoder) = AnyDecoder::under(indexes, setting) else {
            return None;
        };
        law_one_run(&decoder);
        let state = decoder.start_state();
        Some(Checker {
            alloc,
            decoder,
            setting,
            state,
            head: Head::Zero,
            bytes: 0,
            end: 0,
            counts: Counts::none(),
            errors: 0,
            placing: Placing::new(alloc, most),
        })
    }

    /// Checks the next bytes.
    pub(crate) fn check_part(&mut self, bytes: &[u8]) -> Result<(), OutOfMemory>
        ensures { OnOk result (ChecksPart bytes.now self.old self.new) }
    {
        let total = self.total_with(bytes)?;
        let (decoded, after) = self.decode(bytes)?;
        self.name_errors(bytes, decoded.errors)?;
        self.add(&decoded)?;
        self.go_on(bytes, total, after);
        Ok(())
    }

    /// The number of bytes with these.
    fn total_with(&self, bytes: &[u8]) -> Result<u64, OutOfMemory>
        ensures { IfOk result (λ n. n ≡ self.now.bytes + length bytes.now) }
    {
        more(self.bytes, bytes.len() as u64)
    }

    /// The text and the errors of the next bytes, as far as they decide them, and the decoder's state after
    /// them.
    fn decode(&self, bytes: &[u8]) -> Result<(Decoded, AnyState), OutOfMemory>
        requires { self.now.bytes + length bytes.now < 2 ^ 64 }
        ensures part { IfOk result (λ r. IsPart self.now (length bytes.now) (feed (any self.now.decoder) self.now.state bytes.now).items r.0) }
        ensures state { IfOk result (λ r. r.1 ≡ (feed (any self.now.decoder) self.now.state bytes.now).state) }
    {
        let mut text = PartText::new(self.alloc, false, distance(self.end, self.bytes)?);
        let part = Part {
            decoder: &self.decoder,
            bytes,
        };
        let after = decode_part(part, self.state, &mut text)?;
        Ok((text.finish()?, after))
    }

    /// The text and the errors of what the end of the stream gives.
    fn decode_last(&self, last: &[Ended]) -> Result<Decoded, OutOfMemory>
        ensures part { IfOk result (IsPart self.now 0 last.now) }
        ensures fits { IfOk result (λ d. self.now.bytes < 2 ^ 64) }
    {
        let mut text = PartText::new(self.alloc, false, distance(self.end, self.bytes)?);
        text.take_last(last)?;
        text.finish()
    }

    /// Finds the places of the errors of the next bytes, which have so many, if more are asked for.
    fn name_errors(&mut self, bytes: &[u8], errors: u64) -> Result<(), OutOfMemory>
        requires room { self.old.bytes + length bytes.now < 2 ^ 64 }
        requires errors { errors ≡ with_errors 0 (feed (any self.old.decoder) self.old.state bytes.now).items }
        ensures { OnOk result (Names (length bytes.now) (feed (any self.old.decoder) self.old.state bytes.now).items self.old self.new) }
    {
        if errors == 0 {
            return Ok(());
        }
        if self.placing.is_full() {
            return Ok(());
        }
        law_one_run(&self.decoder);
        self.placing.begin(self.bytes, self.end, self.counts);
        run_piece(
            &self.decoder,
            self.state,
            bytes,
            &mut self.placing,
            &mut meter(),
        )?;
        Ok(())
    }

    /// The same for the errors that the end of the stream gives.
    fn name_last(&mut self, last: &[Ended], errors: u64) -> Result<(), OutOfMemory>
        requires room { self.old.bytes < 2 ^ 64 }
        requires errors { errors ≡ with_errors 0 last.now }
        ensures { OnOk result (Names 0 last.now self.old self.new) }
    {
        if errors == 0 {
            return Ok(());
        }
        if self.placing.is_full() {
            return Ok(());
        }
        self.placing.begin(self.bytes, self.end, self.counts);
        self.placing.take_last(last)
    }

    /// Adds the numbers of a part.
    fn add(&mut self, decoded: &Decoded) -> Result<(), OutOfMemory>
        ensures { OnOk result (self.new ≡ added decoded.now self.old) }
    {
        self.errors = more(self.errors, decoded.errors)?;
        self.counts = self.counts.with(&decoded.text)?;
        self.end = self.bytes.saturating_add_signed(decoded.end);
        Ok(())
    }

    /// Goes on behind these bytes, of which there are so many in all then.
    fn go_on(&mut self, bytes: &[u8], total: u64, after: AnyState)
        ensures head { head_bytes self.new.head ≡ take 3 (head_bytes self.old.head ++ bytes.now) }
        ensures others { self.new ≡ gone_on after self.new.head total self.old }
    {
        self.state = after;
        self.head = self.head.with(bytes);
        self.bytes = total;
    }

    /// Adds the items that the end of the stream gives.
    fn check_end(&mut self, last: &[Ended]) -> Result<(), OutOfMemory>
        ensures { OnOk result (EndsCheck last.now self.old self.new) }
    {
        let decoded = self.decode_last(last)?;
        self.name_last(last, decoded.errors)?;
        self.add(&decoded)
    }

    /// What the stream has, if it ends here.
    pub(crate) fn finish(self) -> Result<Row, OutOfMemory>
        ensures { (files : Files) (setting : Setting) (most : ℕ) (read : List ℕ) → Checked files setting most read self.entry
            → IfOk result (IsRow files setting most read) }
    {
        let mut checker = self;
        let last = checker.last();
        checker.check_end(last.items.as_slice())?;
        checker.row()
    }

    /// What the end of the stream gives.
    fn last(&self) -> Step<AnyState>
        ensures { result.items ≡ run (any self.now.decoder) self.now.state [] }
    {
        self.decoder.finish(self.state)
    }

    /// The row of all that was checked.
    fn row(self) -> Result<Row, OutOfMemory>
        ensures { IfOk result (RowOf self.entry) }
    {
        let Checker {
            setting,
            head,
            bytes,
            counts,
            errors,
            placing,
            ..
        } = self;
        let Sniffed { encoding, bom_len } = head.sniffed(setting);
        Ok(Row {
            encoding,
            bom: bom_len,
            bytes,
            characters: counts.characters,
            lf: counts.lines.saturating_sub(counts.crs),
            crlf: counts.pairs,
            cr: counts.crs.saturating_sub(counts.pairs),
            lines: more(counts.lines, 1)?,
            errors,
            places: behind_mark(placing.finish(), bom_len),
        })
    }
}

/// How far a place is behind another one. A distance that doesn't fit is refused; no stream that is read is
/// so long.
fn distance(place: u64, from: u64) -> Result<i64, OutOfMemory>
    ensures value { IfOk result (λ d. d ≡ pos place -ℤ pos from) }
    ensures signed { IfOk result (λ d. FitsSigned w64 d) }
    ensures fits { (place < 2 ^ 64) × (from < 2 ^ 64) }
{
    match place.checked_signed_diff(from) {
        Some(distance) => Ok(distance),
        None => Err(AllocError),
    }
}

/// The errors, where the first item of the stream begins behind its byte order mark.
fn behind_mark(found: Vec<Found>, mark: u64) -> Vec<Found>
    ensures { result.items ≡ marked mark found.items }
{
    let mut found = found;
    if let Some(first) = found.first_mut() {
        if first.line == 0 && first.character == 0 {
            first.place.from = mark;
        }
    }
    found
}
