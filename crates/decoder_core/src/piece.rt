//! Runs over a slice of bytes.
ghost use Rattle.std.specs.Prelude.{◌≡◌, ℕ, ◌+◌, ◌-◌, ◌^◌, ◌<◌, ◌≤◌, min, length, take, [], ◌∷◌, fold, IfOk, OnOk, OnErr};
ghost use Rattle.decoder_core.specs.Shown.{shown_at, shown_from, TookPrefix};
ghost use Rattle.decoder_core.specs.{Escapes.IsEscape, Queue.feed};

use crate::bulk::{Bulk, Stride};
use crate::counts::Meter;
use crate::decoder::{Decoder, Escape, Simple, Step};
use crate::item::Ended;
use crate::memory::OutOfMemory;
use crate::sink::Sink;

/// The least number of bytes to step over after nothing was taken in bulk. Then bulk is tried
/// again, since mostly one character alone lies between two runs. The number is odd, so that pairs
/// aren't met in their middle again and again. With the next stretch it is four bytes, the length
/// of gb18030's longest characters.
const SHORTEST: usize = 1;

/// The most bytes to step over. Each time that none is taken, the next number is twice as large
/// plus one. So text without runs is decoded as fast as without the trials.
const LONGEST: usize = 255;

/// The least number of bytes in a run that pays.
const RUN: usize = 16;

/// The number of bytes in an escape.
const ESCAPE: usize = 3;

/// Steps over the bytes from a state, and returns the state after them (`state`). The sink takes
/// the items (`items`). If memory runs out, the sink took a prefix of them (`err`). The meter
/// counts the bytes (`meter`); if memory runs out, it never falls (`meter_least`) and counts at
/// most all bytes (`meter_most`).
pub fn run_piece<D: Decoder, K: Sink<D::State>>(
    decoder: &D,
    state: D::State,
    bytes: &[u8],
    sink: &mut K,
    meter: &mut Meter,
) -> Result<D::State, OutOfMemory>
    ensures state { IfOk result (λ after. after ≡ (feed (D.table decoder.now) state bytes.now).state) }
    ensures items { OnOk result (K.seen sink.new ≡ fold K.taken (K.seen sink.old) (shown_from (D.table decoder.now) 0 state bytes.now)) }
    ensures err { OnErr result (TookPrefix K.taken (K.seen sink.old) (shown_from (D.table decoder.now) 0 state bytes.now) (K.seen sink.new)) }
    ensures meter { OnOk result (meter.new ≡ min (meter.old + length bytes.now) (2 ^ 64 - 1)) }
    ensures meter_least { meter.old ≤ meter.new }
    ensures meter_most { meter.new ≤ min (meter.old + length bytes.now) (2 ^ 64 - 1) }
{
    meter.count(bytes.len());
    let mut block = [0; 1024];
    let mut reached = state;
    let mut read = 0;
    let mut stretch = SHORTEST;
    // All that a byte passes through is inlined here: several times as fast.
    'bytes: while read < bytes.len() {
        let moved = advance(
            decoder,
            reached,
            &bytes[read..],
            read,
            stretch,
            &mut block,
            sink,
        )?;
        reached = moved.state;
        read += moved.taken;
        stretch = moved.stretch;
    }
    Ok(reached)
}

/// A state after some bytes, and their number. It has the number of bytes to step over too, if none
/// of the next is taken in bulk.
#[derive(Clone, Copy, PartialEq, Eq, Debug)]
struct Moved<S> {
    state: S,
    taken: usize,
    stretch: usize,
}

/// Takes the next bytes: the leading escape, what the decoder takes in bulk, or a stretch by steps.
#[inline(always)]
fn advance<D: Decoder, K: Sink<D::State>>(
    decoder: &D,
    state: D::State,
    rest: &[u8],
    read: usize,
    stretch: usize,
    block: &mut [u8; 1024],
    sink: &mut K,
) -> Result<Moved<D::State>, OutOfMemory>
    requires some { 0 < length rest.now }
    requires steps { 0 < stretch }
    requires bound { read + length rest.now < 2 ^ 63 }
    ensures steps { IfOk result (λ m. 0 < m.stretch) }
    ensures moved { IfOk result (λ m. (0 < m.taken) × (m.taken ≤ length rest.now)) }
    ensures state { IfOk result (λ m. m.state ≡ (feed (D.table decoder.now) state (take m.taken rest.now)).state) }
    ensures items { IfOk result (λ m. K.seen sink.new ≡ fold K.taken (K.seen sink.old) (shown_from (D.table decoder.now) read state (take m.taken rest.now))) }
    ensures err { OnErr result (TookPrefix K.taken (K.seen sink.old) (shown_from (D.table decoder.now) read state rest.now) (K.seen sink.new)) }
{
    if let Some(escape) = decoder.escape(state, rest) {
        return step_past(decoder, state, escape, rest, read, sink);
    }
    let taken = bulk_into(decoder, state, rest, read, block, sink)?;
    if taken > 0 {
        return Ok(Moved {
            state,
            taken,
            stretch: if taken < RUN { stretch } else { SHORTEST },
        });
    }
    let taken = rest.len().min(stretch);
    let after = step_over(decoder, state, &rest[..taken], read, sink)?;
    Ok(Moved {
        state: after,
        taken,
        stretch: longer(stretch),
    })
}

/// Takes the leading escape, and steps over the bytes after it that belong to it.
#[inline(always)]
fn step_past<D: Decoder, K: Sink<D::State>>(
    decoder: &D,
    _state: D::State,
    escape: Escape<D::State>,
    rest: &[u8],
    read: usize,
    sink: &mut K,
) -> Result<Moved<D::State>, OutOfMemory>
    requires bound { read + length rest.now < 2 ^ 63 }
    requires escape { IsEscape (D.table decoder.now) _state rest.now escape.state }
    ensures steps { IfOk result (λ m. 0 < m.stretch) }
    ensures moved { IfOk result (λ m. (0 < m.taken) × (m.taken ≤ length rest.now)) }
    ensures state { IfOk result (λ m. m.state ≡ (feed (D.table decoder.now) _state (take m.taken rest.now)).state) }
    ensures items { IfOk result (λ m. K.seen sink.new ≡ fold K.taken (K.seen sink.old) (shown_from (D.table decoder.now) read _state (take m.taken rest.now))) }
    ensures err { OnErr result (TookPrefix K.taken (K.seen sink.old) (shown_from (D.table decoder.now) read _state rest.now) (K.seen sink.new)) }
{
    let behind = escape.behind.min(rest.len() - ESCAPE);
    let taken = ESCAPE + behind;
    let after = step_over(
        decoder,
        escape.state,
        &rest[ESCAPE..taken],
        read + ESCAPE,
        sink,
    )?;
    Ok(Moved {
        state: after,
        taken,
        stretch: SHORTEST,
    })
}

/// The next number of bytes to step over, if none was taken in bulk.
#[inline(always)]
fn longer(stretch: usize) -> usize
    ensures { 0 < result }
{
    stretch.saturating_mul(2).saturating_add(1).min(LONGEST)
}

/// Steps over some bytes, which follow the first `read`.
#[inline(always)]
fn step_over<D: Decoder, K: Sink<D::State>>(
    decoder: &D,
    state: D::State,
    part: &[u8],
    read: usize,
    sink: &mut K,
) -> Result<D::State, OutOfMemory>
    requires { read + length part.now < 2 ^ 63 }
    ensures state { IfOk result (λ after. after ≡ (feed (D.table decoder.now) state part.now).state) }
    ensures items { OnOk result (K.seen sink.new ≡ fold K.taken (K.seen sink.old) (shown_from (D.table decoder.now) read state part.now)) }
    ensures err { OnErr result (TookPrefix K.taken (K.seen sink.old) (shown_from (D.table decoder.now) read state part.now) (K.seen sink.new)) }
{
    let mut reached = state;
    // All that a byte passes through is inlined here: several times as fast.
    'bytes: for (index, byte) in part.iter().enumerate() {
        reached = step_into(decoder, reached, *byte, read + index + 1, sink)?;
    }
    Ok(reached)
}

/// Gives the sink what the decoder takes in bulk. Returns the number of bytes taken.
// A state that a call borrows is read from memory again, which waits for its parts to be written.
#[inline(always)]
fn bulk_into<D: Decoder, K: Sink<D::State>>(
    decoder: &D,
    state: D::State,
    rest: &[u8],
    read: usize,
    block: &mut [u8; 1024],
    sink: &mut K,
) -> Result<usize, OutOfMemory>
    requires { read + length rest.now < 2 ^ 63 }
    ensures within { IfOk result (λ taken. taken ≤ length rest.now) }
    ensures state { IfOk result (λ taken. (feed (D.table decoder.now) state (take taken rest.now)).state ≡ state) }
    ensures items { IfOk result
        (λ taken. K.seen sink.new ≡ fold K.taken (K.seen sink.old) (shown_from (D.table decoder.now) read state (take taken rest.now))) }
    ensures err { OnErr result (TookPrefix K.taken (K.seen sink.old) (shown_from (D.table decoder.now) read state rest.now) (K.seen sink.new)) }
{
    let own = decoder.own_text(state, rest);
    if own > 0 {
        // `own_text` ensures that these bytes are UTF-8.
        let text = unsafe { str::from_utf8_unchecked(&rest[..own]) };
        sink.plain(text, own, (read + own) as i64, Stride::Utf8, state)?;
        return Ok(own);
    }
    let Bulk {
        taken,
        written,
        stride,
    } = decoder.bulk(state, rest, block);
    if taken > 0 {
        // `bulk` ensures that what it has written is UTF-8.
        let text = unsafe { str::from_utf8_unchecked(&block[..written]) };
        sink.plain(text, taken, (read + taken) as i64, stride, state)?;
    }
    Ok(taken)
}

/// Takes byte number `read`, counted from 1, and gives the step's items to the sink.
// In the loop over the bytes.
#[inline(always)]
fn step_into<D: Decoder, K: Sink<D::State>>(
    decoder: &D,
    state: D::State,
    byte: u8,
    read: usize,
    sink: &mut K,
) -> Result<D::State, OutOfMemory>
    requires { read < 2 ^ 63 }
    ensures state { IfOk result (λ after. after ≡ (feed (D.table decoder.now) state (byte ∷ [])).state) }
    ensures items { let fed = feed (D.table decoder.now) state (byte ∷ []) in
        OnOk result (K.seen sink.new ≡ fold K.taken (K.seen sink.old) (shown_at read fed.state fed.items)) }
    ensures err { let fed = feed (D.table decoder.now) state (byte ∷ []) in
        OnErr result (TookPrefix K.taken (K.seen sink.old) (shown_at read fed.state fed.items) (K.seen sink.new)) }
{
    if let Some(Simple { state: after, item }) = decoder.simple_step(state, byte) {
        if let Some(item) = item {
            sink.item(item, read as i64, after)?;
        }
        return Ok(after);
    }
    step_whole(decoder, state, byte, read, sink)
}

/// Like `step_into`, by the step in its long form.
// Once in a while: its storage of eight items would be cleared in the loop over the bytes.
#[inline(never)]
fn step_whole<D: Decoder, K: Sink<D::State>>(
    decoder: &D,
    state: D::State,
    byte: u8,
    read: usize,
    sink: &mut K,
) -> Result<D::State, OutOfMemory>
    requires { read < 2 ^ 63 }
    ensures state { IfOk result (λ after. after ≡ (feed (D.table decoder.now) state (byte ∷ [])).state) }
    ensures items { let fed = feed (D.table decoder.now) state (byte ∷ []) in
        OnOk result (K.seen sink.new ≡ fold K.taken (K.seen sink.old) (shown_at read fed.state fed.items)) }
    ensures err { let fed = feed (D.table decoder.now) state (byte ∷ []) in
        OnErr result (TookPrefix K.taken (K.seen sink.old) (shown_at read fed.state fed.items) (K.seen sink.new)) }
{
    let Step {
        state: after,
        items,
    } = decoder.step(state, byte);
    give(items.as_slice(), read, after, sink)?;
    Ok(after)
}

/// Gives the sink the items of the step for byte number `read`. Bytes are counted from 1.
pub(crate) fn give<S: Copy, K: Sink<S>>(
    items: &[Ended],
    read: usize,
    after: S,
    sink: &mut K,
) -> Result<(), OutOfMemory>
    requires { read < 2 ^ 63 }
    ensures ok { OnOk result (K.seen sink.new ≡ fold K.taken (K.seen sink.old) (shown_at read after items.now)) }
    ensures err { OnErr result (TookPrefix K.taken (K.seen sink.old) (shown_at read after items.now) (K.seen sink.new)) }
{
    'items: for ended in items {
        let end = read as i64 - i64::from(ended.back);
        sink.item(ended.item, end, after)?;
    }
    Ok(())
}
