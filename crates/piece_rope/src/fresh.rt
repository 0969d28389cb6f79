//! New pieces of some bytes.
ghost use Rattle.std.specs.Prelude.{◌≡◌, ◌+◌, ◌-◌, ◌^◌, ◌≤◌, ◌<◌, min, length, IfOk, OnOk};
ghost use Rattle.state_memo.specs.Decoding.{feed, any};
ghost use Rattle.piece_rope.specs.Sizes.{AreSized, longest, shortest};
ghost use Rattle.piece_rope.specs.{Chain.Chain, Chain.bytes_of, Laws.IsLawful};

use crate::entered::Entered;
use crate::limits::{LONGEST_PIECE, SHORTEST_PIECE};
use state_memo::{AnyDecoder, AnyState, Meter, OutOfMemory};
use std::alloc::{AllocError, Global};

/// New pieces, and the state after them.
#[derive(Drop)]
pub(crate) struct Fresh {
    pub pieces: Vec<Entered>,
    pub exit: AnyState,
}

/// The number of these bytes that the next piece takes.
fn part_of(bytes: &[u8]) -> usize
    ensures within { result ≤ length bytes.now }
    ensures small { result ≤ longest }
    ensures some { 0 < length bytes.now → 0 < result }
    ensures wide { shortest ≤ length bytes.now → shortest ≤ result }
    ensures rest { shortest ≤ length bytes.now → result < length bytes.now → shortest ≤ length bytes.now - result }
    ensures whole { length bytes.now ≤ longest → result ≡ length bytes.now }
{
    let len = bytes.len();
    if len <= LONGEST_PIECE {
        len
    } else if len < LONGEST_PIECE + SHORTEST_PIECE {
        character_start(bytes, len / 2)
    } else {
        character_start(bytes, LONGEST_PIECE)
    }
}

/// The place to cut instead of `at`. It is before the UTF-8 character into which a cut there would
/// fall. A piece that begins with the rest of a character has another text than its bytes, and
/// keeps both. Four bytes that aren't the first of a character aren't UTF-8, and there the cut
/// stays.
fn character_start(bytes: &[u8], at: usize) -> usize
    ensures within { result ≤ at }
    ensures near { at ≤ result + 3 }
{
    match bytes.get(..=at) {
        Some([.., behind]) if !is_trail(*behind) => at,
        Some([.., last, _]) if !is_trail(*last) => at - 1,
        Some([.., before, _, _]) if !is_trail(*before) => at - 2,
        Some([.., first, _, _, _]) if !is_trail(*first) => at - 3,
        _ => at,
    }
}

/// Whether the byte is a UTF-8 character's second byte or a later one.
fn is_trail(byte: u8) -> bool {
    matches!(byte, 0x80..=0xBF)
}

/// Pieces of these bytes, the first entered in `entry`.
pub(crate) fn fresh_pieces(
    alloc: Global,
    decoder: &AnyDecoder<'_>,
    entry: AnyState,
    bytes: &[u8],
    meter: &mut Meter,
) -> Result<Fresh, OutOfMemory>
    requires { IsLawful decoder.now }
    ensures bytes { IfOk result (λ f. bytes_of f.pieces.items ≡ bytes.now) }
    ensures chain { IfOk result (λ f. Chain decoder.now entry f.pieces.items) }
    ensures exit { IfOk result (λ f. f.exit ≡ (feed (any decoder.now) entry bytes.now).state) }
    ensures small { IfOk result (λ f. AreSized 1 f.pieces.items) }
    ensures wide { IfOk result (λ f. shortest ≤ length bytes.now → AreSized shortest f.pieces.items) }
    ensures few { IfOk result (λ f. length bytes.now ≤ longest → length f.pieces.items ≤ 1) }
    ensures meter { OnOk result (min (meter.old + length bytes.now) (2 ^ 64 - 1) ≤ meter.new) }
    ensures meter_most { meter.new ≤ meter.old + length bytes.now }
    ensures meter_least { meter.old ≤ meter.new }
{
    let mut pieces = Vec::new(alloc);
    let mut state = entry;
    let mut rest = bytes;
    'rest: while !rest.is_empty() {
        let (part, later) = rest.split_at(part_of(rest));
        let (piece, exit) = Entered::new(alloc, decoder, state, part, meter)?;
        pieces.push(piece).map_err(AllocError::from)?;
        state = exit;
        rest = later;
    }
    Ok(Fresh {
        pieces,
        exit: state,
    })
}
