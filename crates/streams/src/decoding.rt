//! Decoding of a part of a stream.
ghost use Rattle.std.specs.Prelude.{◌≡◌, length, fold, IfOk, OnOk};
ghost use Rattle.decoder_core.specs.Queue.{feed};
ghost use Rattle.codec.specs.{Any.any, declared.state.AnyState.AnyState};
ghost use Rattle.streams.specs.{Among.IsAmong, Gathering.with_ended};

use crate::locating::Locating;
use crate::part_text::PartText;
use codec::{AnyDecoder, AnyState, UTF_16BE, UTF_16LE, by_own};
use decoder_core::{Decoder, OutOfMemory, Utf8Decoder, law_among, law_one_run, meter, run_piece};

/// Bytes of a stream, and its decoder.
#[derive(Clone, Copy)]
pub(crate) struct Part<'p, 'i> {
    /// The decoder.
    pub(crate) decoder: &'p AnyDecoder<'i>,
    /// The bytes.
    pub(crate) bytes: &'p [u8],
}

/// Gathers the text of the bytes from a state, and returns the state after them.
pub(crate) fn decode_part(
    part: Part<'_, '_>,
    state: AnyState,
    text: &mut PartText,
) -> Result<AnyState, OutOfMemory>
    ensures state { IfOk result (λ after. after ≡ (feed (any part.entry.decoder.now) state part.entry.bytes.now).state) }
    ensures items { OnOk result
        (text.new ≡ fold (with_ended (length part.entry.bytes.now)) text.old (feed (any part.entry.decoder.now) state part.entry.bytes.now).items) }
{
    law_one_run(part.decoder);
    let entry = part.decoder.without_look(state, part.bytes);
    decode_from(part, entry, text)
}

/// Like `decode_part`, by the decoder that has this state: it is selected once, and not for each byte.
/// After a byte order mark that is UTF-8 or UTF-16, whatever encoding is declared.
fn decode_from(
    part: Part<'_, '_>,
    state: AnyState,
    text: &mut PartText,
) -> Result<AnyState, OutOfMemory>
    ensures state { IfOk result (λ after. after ≡ (feed (any part.entry.decoder.now) state part.entry.bytes.now).state) }
    ensures items { OnOk result
        (text.new ≡ fold (with_ended (length part.entry.bytes.now)) text.old (feed (any part.entry.decoder.now) state part.entry.bytes.now).items) }
{
    match state {
        AnyState::Utf8(s) => decode_by(part, &Utf8Decoder, AnyState::Utf8, s, text),
        AnyState::Utf16Be(s) => decode_by(part, &UTF_16BE, AnyState::Utf16Be, s, text),
        AnyState::Utf16Le(s) => decode_by(part, &UTF_16LE, AnyState::Utf16Le, s, text),
        _ => decode_own(part, state, text),
    }
}

/// Decoding by a decoder if the entry is a state of its own, otherwise by the one decoder.
macro_rules! decode_arm {
    ($name:ident, $own:expr, $part:expr, $state:expr, $text:expr) => {
        match $state {
            AnyState::$name(s) => decode_by($part, $own, AnyState::$name, s, $text),
            _ => decode_any($part, $state, $text),
        }
    };
}

/// Like `decode_part`, by the decoder of the declared encoding.
fn decode_own(
    part: Part<'_, '_>,
    state: AnyState,
    text: &mut PartText,
) -> Result<AnyState, OutOfMemory>
    ensures state { IfOk result (λ after. after ≡ (feed (any part.entry.decoder.now) state part.entry.bytes.now).state) }
    ensures items { OnOk result
        (text.new ≡ fold (with_ended (length part.entry.bytes.now)) text.old (feed (any part.entry.decoder.now) state part.entry.bytes.now).items) }
{
    by_own!(part.decoder.own(), decode_arm, part, state, text)
}

/// Like `decode_part`, by the one decoder, which asks at each byte whose state it is in.
fn decode_any(
    part: Part<'_, '_>,
    state: AnyState,
    text: &mut PartText,
) -> Result<AnyState, OutOfMemory>
    ensures state { IfOk result (λ after. after ≡ (feed (any part.entry.decoder.now) state part.entry.bytes.now).state) }
    ensures items { OnOk result
        (text.new ≡ fold (with_ended (length part.entry.bytes.now)) text.old (feed (any part.entry.decoder.now) state part.entry.bytes.now).items) }
{
    law_one_run(part.decoder);
    run_piece(part.decoder, state, part.bytes, text, &mut meter())
}

/// Like `decode_part`, by a decoder from a state of its own. `name` names that state among those of the
/// one decoder.
fn decode_by<S: Copy + Eq, D: Decoder<State = S>, N: FnOnce(S) -> AnyState>(
    part: Part<'_, '_>,
    own: &D,
    name: N,
    state: S,
    text: &mut PartText,
) -> Result<AnyState, OutOfMemory>
    requires callable { N.IsAlwaysCallable name }
    requires among { IsAmong part.decoder.now (D.table own.now) (N.post name) }
    ensures state { (entry : AnyState) → N.post name state entry
        → IfOk result (λ after. after ≡ (feed (any part.entry.decoder.now) entry part.entry.bytes.now).state) }
    ensures items { (entry : AnyState) → N.post name state entry → OnOk result
        (text.new ≡ fold (with_ended (length part.entry.bytes.now)) text.old (feed (any part.entry.decoder.now) entry part.entry.bytes.now).items) }
{
    law_one_run(own);
    // Its items are those of the one decoder.
    law_among(own, part.decoder);
    let after = run_piece(own, state, part.bytes, text, &mut meter())?;
    Ok(name(after))
}

/// Finds the code point that `sought` looks for among the items of the bytes. The items of the end come
/// after them, if the stream ends here. Returns where it starts and ends, in bytes from the part's start.
pub(crate) fn locate(part: Part<'_, '_>, state: AnyState, sought: Locating) -> (i64, i64) {
    let mut sought = sought;
    // (the sink takes no memory)
    if let Ok(after) = run_piece(part.decoder, state, part.bytes, &mut sought, &mut meter()) {
        let last = part.decoder.finish(after);
        sought.pass_last(last.items.as_slice(), part.bytes.len());
    }
    sought.place()
}
