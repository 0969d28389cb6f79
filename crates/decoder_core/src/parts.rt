//! Decoding of bytes that come in parts.
ghost use Rattle.std.specs.Prelude.{◌≡◌, ℕ, ◌+◌, ◌-◌, ◌^◌, ◌<◌, ◌≤◌, min, length, [], IfOk, OnOk};
ghost use Rattle.decoder_core.specs.{Queue.feed, Queue.run, Placed.places, Collected.collect, Collected.further_on, Seen.seen_of};

use crate::collector::Collector;
use crate::counts::Meter;
use crate::decoder::Decoder;
use crate::memory::OutOfMemory;
use crate::piece::{give, run_piece};
use crate::placed::Placed;
use std::alloc::Global;

/// Decodes the bytes in parts of the given lengths; the last part is the rest. Whatever the parts
/// are, the result is the Standard's run over all the bytes, with each item's place (`items`). The
/// first item begins at byte number `from`: the bytes of a byte order mark belong to no item. The
/// meter counts the bytes (`meter`). If memory runs out, it never falls (`meter_least`) and counts
/// at most all bytes (`meter_most`).
pub fn decode_parts<D: Decoder>(
    alloc: Global,
    decoder: &D,
    bytes: &[u8],
    from: u64,
    lengths: &[usize],
    meter: &mut Meter,
) -> Result<Vec<Placed>, OutOfMemory>
    ensures items { IfOk result (λ all. all.items ≡ places (length bytes.now) from (run (D.table decoder.now) (D.initial decoder.now) bytes.now)) }
    ensures meter { OnOk result (meter.new ≡ min (meter.old + length bytes.now) (2 ^ 64 - 1)) }
    ensures meter_least { meter.old ≤ meter.new }
    ensures meter_most { meter.new ≤ min (meter.old + length bytes.now) (2 ^ 64 - 1) }
{
    let mut collector = Collector {
        all: Vec::new(alloc),
        base: 0,
        from,
    };
    let mut state = decoder.start();
    let mut rest = bytes;
    'parts: for length in lengths {
        let (part, later) = rest.split_at((*length).min(rest.len()));
        state = decode_part(decoder, state, part, &mut collector, meter)?;
        rest = later;
    }
    state = decode_part(decoder, state, rest, &mut collector, meter)?;
    let last = decoder.finish(state);
    give(last.items.as_slice(), 0, state, &mut collector)?;
    Ok(collector.all)
}

/// Decodes the next part.
fn decode_part<D: Decoder>(
    decoder: &D,
    state: D::State,
    part: &[u8],
    collector: &mut Collector,
    meter: &mut Meter,
) -> Result<D::State, OutOfMemory>
    requires { collector.old.base + length part.now < 2 ^ 64 }
    ensures state { IfOk result (λ after. after ≡ (feed (D.table decoder.now) state part.now).state) }
    ensures items { OnOk result
        (seen_of collector.new ≡ further_on (collector.old.base + length part.now)
        (collect (collector.old.base + length part.now) (seen_of collector.old) (feed (D.table decoder.now) state part.now).items)) }
    ensures meter { OnOk result (meter.new ≡ min (meter.old + length part.now) (2 ^ 64 - 1)) }
    ensures meter_least { meter.old ≤ meter.new }
    ensures meter_most { meter.new ≤ min (meter.old + length part.now) (2 ^ 64 - 1) }
{
    let after = run_piece(decoder, state, part, collector, meter)?;
    collector.base += part.len() as u64;
    Ok(after)
}
