//! A stream that is read to its end and converted.
ghost use Rattle.std.specs.Prelude.{IfErr, IfOk};
ghost use Rattle.streams.specs.Streams.{Begins, BeginsNot, Converts};

use crate::conversion::{Conversion, PartFault};
use crate::converter::{Converter, TextFault};
use crate::refusal::Refusal;
use devices::{Feed, Outlet, Stop, Taker, pump};
use encoders::{EncodeFault, law_parts};
use index_loader::Indexes;
use std::alloc::Global;

/// Why a stream isn't converted to its end.
#[derive(Clone, Copy, PartialEq, Eq, Debug)]
pub enum StreamFault {
    /// The conversion isn't started: nothing was read, and nothing written.
    Refused(Refusal),
    /// A read failed. All text that was decided before is written.
    Read,
    /// The reader was read 2^32 times without an end. All text that was decided before is written.
    TooManyReads,
    /// A part of the stream isn't converted.
    Part(PartFault),
}

impl<'i, W: Outlet> Taker<(), W> for Converter<'i> {
    ghost use Rattle.devices.specs.Reading.{most_bytes};
    ghost use Rattle.streams.specs.Conversions.{ConvertsPart, IsReady, StopsPart};

    type Fault = PartFault;

    ghost ready = { λ s. IsReady s.0.job };

    ghost room = { λ s. most_bytes };

    ghost takes = { λ bytes s t. ConvertsPart bytes s.0 t.0 (W.took s.2).written (W.took t.2).written };

    ghost stops = { λ fault bytes s t. StopsPart fault bytes s.0 (W.took s.2).written (W.took t.2).written };

    fn take(&mut self, _on: &mut (), writer: &mut W, bytes: &[u8]) -> Result<usize, PartFault> {
        // (no byte takes no memory)
        if bytes.is_empty() {
            return Ok(0);
        }
        match self.convert_part(writer, bytes) {
            Ok(()) => Ok(bytes.len()),
            Err(fault) => Err(fault),
        }
    }
}

/// Converts a stream to its end, in constant memory (Encoding Standard, "decode" and "encode"). Each part
/// is decoded, encoded and written before the next one is read. At a fault all text before it is
/// written, as far as the writer takes it.
pub fn convert<R: Feed, W: Outlet>(
    alloc: Global,
    indexes: &Indexes,
    conversion: Conversion,
    reader: &mut R,
    writer: &mut W,
) -> Result<(), StreamFault>
    ensures { Converts result indexes.now conversion (R.seen reader.old) (R.seen reader.new) (W.took writer.old).written (W.took writer.new).written }
{
    law_parts();
    let mut converter = match begin(alloc, indexes, conversion, writer) {
        Ok(begun) => begun,
        Err(fault) => return Err(fault),
    };
    match pump(reader, &mut converter, &mut (), writer) {
        Ok(()) => match converter.convert_end(writer) {
            Ok(()) => Ok(()),
            Err(fault) => Err(StreamFault::Part(fault)),
        },
        Err(Stop::Read) => Err(StreamFault::Read),
        Err(Stop::TooManyReads) => Err(StreamFault::TooManyReads),
        Err(Stop::Taker(fault)) => Err(StreamFault::Part(fault)),
    }
}

/// Starts a conversion. An empty text is put first, so that a target that can't be written is refused
/// before the first read, even if the stream has no text.
fn begin<'i, W: Outlet>(
    alloc: Global,
    indexes: &'i Indexes,
    conversion: Conversion,
    writer: &mut W,
) -> Result<Converter<'i>, StreamFault>
    ensures ok { IfOk result (λ c. Begins indexes.now conversion c (W.took writer.old).written (W.took writer.new).written) }
    ensures err { IfErr result (λ f. BeginsNot f indexes.now conversion (W.took writer.old).written (W.took writer.new).written) }
{
    law_parts();
    let Some(mut converter) = Converter::new(alloc, indexes, conversion) else {
        return Err(StreamFault::Refused(Refusal::SourceIndex));
    };
    match converter.put(writer, "", false) {
        Ok(()) => Ok(converter),
        Err(TextFault::Write) => Err(StreamFault::Part(PartFault::Write)),
        Err(TextFault::Encode(EncodeFault::NoIndex)) => {
            Err(StreamFault::Refused(Refusal::TargetIndex))
        }
        Err(TextFault::Encode(EncodeFault::NoEncoder)) => {
            Err(StreamFault::Refused(Refusal::NoEncoder))
        }
        Err(TextFault::Encode(EncodeFault::OutOfMemory)) => {
            Err(StreamFault::Refused(Refusal::OutOfMemory))
        }
        Err(TextFault::Encode(EncodeFault::Unencodable(_))) => unreachable!(),
    }
}
