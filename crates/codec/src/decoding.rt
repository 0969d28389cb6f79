//! The result of decoding some bytes.
ghost use Rattle.std.specs.Prelude.{◌-◌, ◌≤◌, length, IfOk, drop};
ghost use Rattle.decoder_core.specs.{Counted.Counted, Queue.run, Placed.places};
ghost use Rattle.codec.specs.Decoding.{IsDecoding};

use crate::gathering::TextGathering;
use decoder_core::{Decoder, Meter, OutOfMemory, law_one_run, run_piece};
use enc_names::Place;
use std::alloc::Global;

/// The text of some bytes, and the places of their errors in order.
#[derive(Drop)]
pub struct Decoding {
    /// The text, with U+FFFD for each error.
    pub text: String,
    /// The places of the errors, in bytes.
    pub errors: Vec<Place>,
}

/// Decodes the bytes after the first `skip` from a decoder's first state (`ok`). The errors have
/// their places among all the bytes. The meter counts the decoded bytes (`meter`).
pub fn decode_by<D: Decoder>(
    alloc: Global,
    decoder: &D,
    bytes: &[u8],
    skip: usize,
    meter: &mut Meter,
) -> Result<Decoding, OutOfMemory>
    requires { skip ≤ length bytes.now }
    ensures ok { IfOk result (IsDecoding (places (length bytes.now) skip (run (D.table decoder.now) (D.initial decoder.now) (drop skip bytes.now)))) }
    ensures meter { Counted meter.old meter.new (length bytes.now - skip) result }
{
    let mut gathering = TextGathering::new(alloc, skip as u64);
    let rest = &bytes[skip..];
    let state = run_piece(decoder, decoder.start(), rest, &mut gathering, meter)?;
    let last = decoder.finish(state);
    gathering.take_last(last.items.as_slice(), rest)?;
    // The laws by which the steps and the end are one run.
    law_one_run(decoder);
    gathering.finish()
}
