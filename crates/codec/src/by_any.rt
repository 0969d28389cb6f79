//! Decoding of bytes by the decoder of their encoding.
ghost use Rattle.std.specs.Prelude.{◌-◌, ◌≤◌, drop, length, IfOk};
ghost use Rattle.decoder_core.specs.{Counted.Counted, Queue.run, Placed.places};
ghost use Rattle.codec.specs.Any.{any, any_start, marked, standing_of};
ghost use Rattle.codec.specs.{Decoding.IsDecoding, Mark.mark_length};

use crate::by_own;
use crate::decoder::AnyDecoder;
use crate::decoding::{Decoding, decode_by};
use crate::law_standing::law_standing;
use crate::mark::Mark;
use crate::sniffing::{UTF_16BE, UTF_16LE};
use decoder_core::{Meter, OutOfMemory, Utf8Decoder};
use enc_names::Encoding;
use std::alloc::Global;

/// Decodes bytes as a whole by the decoder of their effective encoding (`ok`). That is the encoding
/// of a byte order mark, if one counts. The meter counts the bytes after the mark (`meter`).
pub fn decode_any(
    alloc: Global,
    decoder: &AnyDecoder<'_>,
    bytes: &[u8],
    meter: &mut Meter,
) -> Result<Decoding, OutOfMemory>
    ensures ok { IfOk result
        (IsDecoding (places (length bytes.now) (mark_length decoder.now.setting bytes.now) (run (any decoder.now) (any_start decoder.now) bytes.now))) }
    ensures meter { Counted meter.old meter.new (length bytes.now - mark_length decoder.now.setting bytes.now) result }
{
    law_standing();
    match Mark::under(decoder.setting(), bytes) {
        Some(mark) => decode_marked(alloc, mark, bytes, meter),
        None => decode_own(alloc, decoder, bytes, meter),
    }
}

/// Decodes the bytes after a byte order mark by the decoder of its encoding.
fn decode_marked(
    alloc: Global,
    mark: Mark,
    bytes: &[u8],
    meter: &mut Meter,
) -> Result<Decoding, OutOfMemory>
    requires { mark.len ≤ length bytes.now }
    ensures ok { IfOk result (IsDecoding (places (length bytes.now) mark.len ((marked mark).run (drop mark.len bytes.now)))) }
    ensures meter { Counted meter.old meter.new (length bytes.now - mark.len) result }
{
    match mark.encoding {
        Encoding::Utf16Be => decode_by(alloc, &UTF_16BE, bytes, mark.len, meter),
        Encoding::Utf16Le => decode_by(alloc, &UTF_16LE, bytes, mark.len, meter),
        _ => decode_by(alloc, &Utf8Decoder, bytes, mark.len, meter),
    }
}

/// Decoding by one of the decoders.
macro_rules! decode_arm {
    ($name:ident, $decoder:expr, $alloc:expr, $bytes:expr, $meter:expr) => {
        decode_by($alloc, $decoder, $bytes, 0, $meter)
    };
}

/// Decodes bytes with no byte order mark by the encoding's own decoder: which one it is, is asked
/// once and not for each byte.
fn decode_own(
    alloc: Global,
    decoder: &AnyDecoder<'_>,
    bytes: &[u8],
    meter: &mut Meter,
) -> Result<Decoding, OutOfMemory>
    ensures ok { IfOk result (IsDecoding (places (length bytes.now) 0 ((standing_of decoder.now.own).run bytes.now))) }
    ensures meter { Counted meter.old meter.new (length bytes.now) result }
{
    by_own!(decoder.own(), decode_arm, alloc, bytes, meter)
}
