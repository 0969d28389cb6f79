//! Decoding of a piece from a state.
ghost use Rattle.std.specs.Prelude.{◌≡◌, length, fold, IfOk};
ghost use Rattle.decoder_core.specs.{Counted.Counted, Queue.feed, Shown.shown_from};
ghost use Rattle.codec.specs.{Any.any, Any.any_start, declared.state.AnyState.AnyState};
ghost use Rattle.state_memo.specs.Outcome.{contents_of, outcome_of, ending_of};
ghost use Rattle.state_memo.specs.{Among.IsAmong, Gathering.with_shown, Gathering.no_item};

use crate::gathering::{Gathering, own_outcome};
use crate::outcome::Outcome;
use crate::outputs::Outputs;
use codec::{AnyDecoder, AnyState, UTF_16BE, UTF_16LE, by_own, law_few_items};
use decoder_core::{Decoder, Meter, OutOfMemory, Utf8Decoder, law_among, own_piece, run_piece};
use std::alloc::Global;
use std::rc::Rc;

/// Decodes the bytes from a state. Returns what the decoder gives, and the state after them.
fn gather<S: Outputs + Eq, D: Decoder<State = S>>(
    alloc: Global,
    decoder: &D,
    state: S,
    bytes: &[u8],
    meter: &mut Meter,
) -> Result<(Gathering, S), OutOfMemory>
    ensures exit { IfOk result (λ r. r.1 ≡ (feed (D.table decoder.now) state bytes.now).state) }
    ensures items { IfOk result (λ r. r.0 ≡ fold (with_shown S.output_at) no_item (shown_from (D.table decoder.now) 0 state bytes.now)) }
    ensures meter { Counted meter.old meter.new (length bytes.now) result }
{
    let mut gathering = Gathering::new(alloc);
    let exit = run_piece(decoder, state, bytes, &mut gathering, meter)?;
    Ok((gathering, exit))
}

/// Decoding by the one decoder, which asks at each byte whose state it is in.
fn compute_any(
    bytes: &Rc<Vec<u8>>,
    decoder: &AnyDecoder<'_>,
    entry: AnyState,
    meter: &mut Meter,
) -> Result<Outcome, OutOfMemory>
    ensures outcome { IfOk result (λ o. contents_of o ≡ outcome_of decoder.now entry bytes.now.value.items) }
    ensures meter { Counted meter.old meter.new (length bytes.now.value.items) result }
{
    // The items are few.
    law_few_items(decoder);
    let slice = bytes.as_slice();
    let (gathering, exit) = gather(*bytes.allocator(), decoder, entry, slice, meter)?;
    gathering.finish(slice.len(), Some(bytes), exit)
}

/// Decodes by a decoder from one of its own states. The state is named as a state of the one
/// decoder.
fn compute_by<S: Outputs + Eq, D: Decoder<State = S>, N: FnOnce(S) -> AnyState>(
    bytes: &Rc<Vec<u8>>,
    decoder: &AnyDecoder<'_>,
    own: &D,
    name: N,
    state: S,
    meter: &mut Meter,
) -> Result<Outcome, OutOfMemory>
    requires callable { N.IsAlwaysCallable name }
    requires among { IsAmong decoder.now (D.table own.now) S.output_at (N.post name) }
    ensures outcome { (entry : AnyState) → N.post name state entry
        → IfOk result (λ o. contents_of o ≡ outcome_of decoder.now entry bytes.now.value.items) }
    ensures meter { Counted meter.old meter.new (length bytes.now.value.items) result }
{
    // The items are few, and they are those of the one decoder.
    law_few_items(decoder);
    law_among(own, decoder);
    let output = state.output_state();
    // What is counted is below 2^64.
    let _decoded = meter.decoded();
    let slice = bytes.as_slice();
    if let Some(_text) = own_piece(own, state, slice, meter) {
        return own_outcome(bytes, output, name(state));
    }
    let (gathering, exit) = gather(*bytes.allocator(), own, state, slice, meter)?;
    gathering.finish(slice.len(), Some(bytes), name(exit))
}

/// Decodes by a decoder if the entry is its state, otherwise by the one decoder.
macro_rules! compute_arm {
    ($name:ident, $own:expr, $bytes:expr, $decoder:expr, $entry:expr, $meter:expr) => {
        match $entry {
            AnyState::$name(s) => {
                compute_by($bytes, $decoder, $own, AnyState::$name, s, $meter)
            }
            _ => compute_any($bytes, $decoder, $entry, $meter),
        }
    };
}

/// Decoding by the encoding's own decoder, where the entry is a state of its own.
fn compute_own(
    bytes: &Rc<Vec<u8>>,
    decoder: &AnyDecoder<'_>,
    entry: AnyState,
    meter: &mut Meter,
) -> Result<Outcome, OutOfMemory>
    ensures outcome { IfOk result (λ o. contents_of o ≡ outcome_of decoder.now entry bytes.now.value.items) }
    ensures meter { Counted meter.old meter.new (length bytes.now.value.items) result }
{
    by_own!(decoder.own(), compute_arm, bytes, decoder, entry, meter)
}

/// Decodes by the decoder that the entry is a state of. After a byte order mark, UTF-8 or UTF-16 is effective
/// whatever encoding is declared.
fn compute_from(
    bytes: &Rc<Vec<u8>>,
    decoder: &AnyDecoder<'_>,
    entry: AnyState,
    meter: &mut Meter,
) -> Result<Outcome, OutOfMemory>
    ensures outcome { IfOk result (λ o. contents_of o ≡ outcome_of decoder.now entry bytes.now.value.items) }
    ensures meter { Counted meter.old meter.new (length bytes.now.value.items) result }
{
    match entry {
        AnyState::Utf8(s) => { compute_by(bytes, decoder, &Utf8Decoder, AnyState::Utf8, s, meter) }
        AnyState::Utf16Be(s) => {
            compute_by(bytes, decoder, &UTF_16BE, AnyState::Utf16Be, s, meter)
        }
        AnyState::Utf16Le(s) => {
            compute_by(bytes, decoder, &UTF_16LE, AnyState::Utf16Le, s, meter)
        }
        _ => compute_own(bytes, decoder, entry, meter),
    }
}

/// Decodes the bytes from a state. If the text is these bytes, it shares their memory. The meter counts the bytes.
/// Which decoder to use is checked once and not for each byte, even at a document's start, if no byte order mark begins
/// there.
pub(crate) fn compute_bytes(
    bytes: &Rc<Vec<u8>>,
    decoder: &AnyDecoder<'_>,
    entry: AnyState,
    meter: &mut Meter,
) -> Result<Outcome, OutOfMemory>
    ensures outcome { IfOk result (λ o. contents_of o ≡ outcome_of decoder.now entry bytes.now.value.items) }
    ensures meter { Counted meter.old meter.new (length bytes.now.value.items) result }
{
    let state = decoder.without_look(entry, bytes.as_slice());
    compute_from(bytes, decoder, state, meter)
}

/// The state before the first byte of a document.
pub fn start_of(decoder: &AnyDecoder<'_>) -> AnyState
    ensures { result ≡ any_start decoder.now }
{
    decoder.start()
}

/// The outcome of the end of a document in a state. It has no bytes, and its exit is the state.
pub fn finish_of(
    alloc: Global,
    decoder: &AnyDecoder<'_>,
    state: AnyState,
) -> Result<Outcome, OutOfMemory>
    ensures { IfOk result (λ o. contents_of o ≡ ending_of decoder.now state) }
{
    law_few_items(decoder);
    let mut gathering = Gathering::new(alloc);
    // A value of several words is used up by the call that takes it: each gets a copy of its own.
    let (seen, read) = (state, state);
    let output = seen.output();
    let last = decoder.finish(read);
    gathering.take_last(last.items.as_slice(), output)?;
    gathering.finish(0, None, state)
}
