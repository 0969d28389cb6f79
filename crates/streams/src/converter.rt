//! A conversion under way.
ghost use Rattle.std.specs.Prelude.{◌≡◌, ◌<◌, ◌++◌, ℕ, Bool, Err, List, Option, [], false, length, take, IfErr, IfOk, IfSome, OnOk, is_some};
ghost use Rattle.std.specs.Prelude.{string_bytes, true};
ghost use Rattle.std.specs.Str.{chars};
ghost use Rattle.decoder_core.specs.Queue.{feed, run};
ghost use Rattle.codec.specs.{Any.any, Texts.ended_text};
ghost use Rattle.encoders.specs.{Parts.HasBytes, declared.fault.EncodeFault.TheVariants.Unencodable as no_bytes};
ghost use Rattle.index_loader.specs.Files.{has_files};
ghost use Rattle.streams.specs.Conversions.{Converting, Ends, Fails, Holds, IsReady, PutFails, PutsAll, PutsText, decided, is_strict, part_of, whole};
ghost use Rattle.streams.specs.Gathering.{kept, stops};
ghost use Rattle.streams.specs.Streams.{Starts};

use crate::conversion::{Conversion, ConvertMode, PartFault, Spot};
use crate::decoding::{Part, decode_part, locate};
use crate::locating::Locating;
use crate::part_text::{Decoded, PartText};
use crate::reached::Reached;
use codec::{AnyDecoder, AnyState};
use decoder_core::{Decoder, Handler, OutOfMemory, Unencodable, law_one_run};
use devices::{Failed, Outlet, write_all};
use enc_names::Encoding;
use encoders::{EncodeFault, Part as TextPart, encode_part, law_parts};
use index_loader::Indexes;
use iso2022jp::OutputState;
use state_memo::split_at_scalar;
use std::alloc::Global;
use std::marker::Model;

/// A conversion after some bytes: its decoder and its encoder, and how far it has come. Contracts
/// see what it goes by, and the states of the two.
#[derive(Drop)]
pub(crate) struct Converter<'i> {
    alloc: Global,
    decoder: AnyDecoder<'i>,
    indexes: &'i Indexes,
    to: Encoding,
    mode: ConvertMode,
    state: AnyState,
    out: OutputState,
    reached: Reached,
}

impl<'i> Model for Converter<'i> {
    ghost Value = { Converting };

    ghost view = { λ c. record {
      job = record { decoder = c.decoder; files = c.indexes.now; to = c.to; mode = c.mode };
      state = c.state;
      out = c.out;
    } };
}

/// Why a text isn't written in the target's encoding.
pub(crate) enum TextFault {
    /// It isn't encoded.
    Encode(EncodeFault),
    /// The write failed.
    Write,
}

impl<'i> Converter<'i> {
    /// A conversion before the first byte. `None` if an index file of the encoding that is read is
    /// missing.
    pub(crate) fn new(
        alloc: Global,
        indexes: &'i Indexes,
        conversion: Conversion,
    ) -> Option<Converter<'i>>
        ensures there { is_some result ≡ has_files indexes.now conversion.from.given }
        ensures starts { IfSome result (λ c. Starts indexes.now conversion c) }
    {
        let Conversion { from, to, mode } = conversion;
        let Some(decoder) = AnyDecoder::under(indexes, from) else {
            return None;
        };
        law_one_run(&decoder);
        let state = decoder.start_state();
        Some(Converter {
            alloc,
            decoder,
            indexes,
            to,
            mode,
            state,
            out: OutputState::Ascii,
            reached: Reached::new(from),
        })
    }

    /// Encodes a text and writes its bytes; with `is_last` the end of the stream follows.
    pub(crate) fn put<W: Outlet>(
        &mut self,
        writer: &mut W,
        text: &str,
        is_last: bool,
    ) -> Result<(), TextFault>
        ensures put { PutsText (part_of self.old (chars text.now) is_last) self.old self.new (W.took writer.old).written (W.took writer.new).written result }
    {
        let part = TextPart {
            text,
            state: self.out,
            is_last,
        };
        match encode_part(
            self.alloc,
            self.to,
            self.indexes,
            self.mode.encode_mode(),
            part,
        ) {
            Ok((bytes, out)) => match write_all(writer, &bytes) {
                Ok(()) => {
                    self.out = out;
                    Ok(())
                }
                Err(Failed) => Err(TextFault::Write),
            },
            Err(fault) => Err(TextFault::Encode(fault)),
        }
    }

    /// The text of the next bytes, as far as they decide it, and the decoder's state after them.
    fn decode(&self, bytes: &[u8]) -> Result<(Decoded, AnyState), OutOfMemory>
        ensures text { IfOk result (λ r. chars (string_bytes r.0.text)
            ≡ ended_text (kept (is_strict self.now.job.mode) (feed (any self.now.job.decoder) self.now.state bytes.now).items)) }
        ensures stop { IfOk result (λ r. is_some r.0.stop
            ≡ stops (is_strict self.now.job.mode) (feed (any self.now.job.decoder) self.now.state bytes.now).items) }
        ensures state { IfOk result (λ r. r.1 ≡ (feed (any self.now.job.decoder) self.now.state bytes.now).state) }
    {
        let mut text = PartText::new(self.alloc, self.mode.is_strict(), self.reached.last_end());
        let part = Part {
            decoder: &self.decoder,
            bytes,
        };
        let after = decode_part(part, self.state, &mut text)?;
        Ok((text.finish()?, after))
    }

    /// Converts the next bytes, as far as they decide their text.
    pub(crate) fn convert_part<W: Outlet>(
        &mut self,
        writer: &mut W,
        bytes: &[u8],
    ) -> Result<(), PartFault>
        requires { IsReady self.old.job }
        ensures ok { (began : Option (List ℕ)) (read : List ℕ) → Holds self.old.job began read self.old (W.took writer.old).written
            → OnOk result (Holds self.old.job began (read ++ bytes.now) self.new (W.took writer.new).written) }
        ensures err { (began : Option (List ℕ)) (read : List ℕ) → Holds self.old.job began read self.old (W.took writer.old).written
            → IfErr result (λ f. Fails f self.old.job began (decided self.old.job (read ++ bytes.now)) false (W.took writer.new).written) }
        ensures job { OnOk result (self.new.job ≡ self.old.job) }
    {
        law_one_run(&self.decoder);
        law_parts();
        self.reached.begin_part(bytes);
        let (decoded, after) = match self.decode(bytes) {
            Ok(found) => found,
            Err(_) => return Err(PartFault::OutOfMemory),
        };
        match self.put_decoded(writer, bytes, &decoded.text, false) {
            Ok(()) => {}
            Err(fault) => return Err(fault),
        }
        if let Some(stop) = decoded.stop {
            let spot = self.reached.spot(&decoded.text, decoded.end, stop);
            return Err(PartFault::Malformed(spot, self.reached.encoding()));
        }
        self.reached.end_part(bytes, &decoded.text, decoded.end);
        self.state = after;
        Ok(())
    }

    /// Converts what the end of the stream gives: what the decoder still holds, and the encoder's return to
    /// its first state.
    pub(crate) fn convert_end<W: Outlet>(&mut self, writer: &mut W) -> Result<(), PartFault>
        requires { IsReady self.old.job }
        ensures ok { (began : Option (List ℕ)) (read : List ℕ) → Holds self.old.job began read self.old (W.took writer.old).written
            → OnOk result (Ends self.old.job began read (W.took writer.new).written) }
        ensures err { (began : Option (List ℕ)) (read : List ℕ) → Holds self.old.job began read self.old (W.took writer.old).written
            → IfErr result (λ f. Fails f self.old.job began (whole self.old.job read) true (W.took writer.new).written) }
    {
        law_one_run(&self.decoder);
        law_parts();
        let decoded = match self.decode_end() {
            Ok(found) => found,
            Err(_) => return Err(PartFault::OutOfMemory),
        };
        match decoded.stop {
            None => self.put_decoded(writer, &[], &decoded.text, true),
            Some(stop) => match self.put_decoded(writer, &[], &decoded.text, false) {
                Ok(()) => {
                    let spot = self.reached.spot(&decoded.text, decoded.end, stop);
                    Err(PartFault::Malformed(spot, self.reached.encoding()))
                }
                Err(fault) => Err(fault),
            },
        }
    }

    /// The text of what the end of the stream gives.
    fn decode_end(&self) -> Result<Decoded, OutOfMemory>
        ensures text { IfOk result (λ d. chars (string_bytes d.text)
            ≡ ended_text (kept (is_strict self.now.job.mode) (run (any self.now.job.decoder) self.now.state []))) }
        ensures stop { IfOk result (λ d. is_some d.stop ≡ stops (is_strict self.now.job.mode) (run (any self.now.job.decoder) self.now.state [])) }
    {
        let mut text = PartText::new(self.alloc, self.mode.is_strict(), self.reached.last_end());
        let last = self.decoder.finish(self.state);
        text.take_last(last.items.as_slice())?;
        text.finish()
    }

    /// Writes the text of the next bytes. If the target lacks a code point, all before it is written.
    fn put_decoded<W: Outlet>(
        &mut self,
        writer: &mut W,
        bytes: &[u8],
        text: &str,
        is_last: bool,
    ) -> Result<(), PartFault>
        requires { IsReady self.old.job }
        ensures { PutsAll (part_of self.old) (chars text.now) is_last self.old self.new (W.took writer.old).written (W.took writer.new).written result }
    {
        law_parts();
        match self.put(writer, text, is_last) {
            Ok(()) => Ok(()),
            Err(TextFault::Write) => Err(PartFault::Write),
            Err(TextFault::Encode(EncodeFault::Unencodable(found))) => {
                Err(self.put_front(writer, bytes, text, found))
            }
            Err(TextFault::Encode(EncodeFault::OutOfMemory)) => Err(PartFault::OutOfMemory),
            Err(TextFault::Encode(EncodeFault::NoIndex | EncodeFault::NoEncoder)) => unreachable!(),
        }
    }

    /// Writes a text up to the code point that the target lacks, and returns why no more is written.
    fn put_front<W: Outlet>(
        &mut self,
        writer: &mut W,
        bytes: &[u8],
        text: &str,
        found: Unencodable,
    ) -> PartFault
        requires within { found.index < length (chars text.now) }
        requires front { HasBytes (part_of self.old (take found.index (chars text.now)) false) }
        ensures { (end : Bool) → part_of self.old (chars text.now) end ≡ Err (no_bytes found)
            → PutFails (part_of self.old) (chars text.now) end (W.took writer.old).written (W.took writer.new).written result }
    {
        let Some((front, _)) = split_at_scalar(text, found.index as usize) else {
            unreachable!()
        };
        let spot = self.spot_of(bytes, front, found.index);
        match self.put(writer, front, false) {
            Ok(()) => PartFault::Unencodable(spot, found.code_point),
            Err(TextFault::Write) => PartFault::Write,
            Err(TextFault::Encode(EncodeFault::OutOfMemory)) => PartFault::OutOfMemory,
            Err(TextFault::Encode(_)) => unreachable!(),
        }
    }

    /// The spot of code point number `index` of the next bytes, after the text before it.
    fn spot_of(&self, bytes: &[u8], front: &str, index: u64) -> Spot {
        let part = Part {
            decoder: &self.decoder,
            bytes,
        };
        let (from, to) = locate(
            part,
            self.state,
            Locating::new(index, self.reached.last_end()),
        );
        self.reached.spot(front, from, to)
    }
}
