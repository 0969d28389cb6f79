//! The pieces that an edit touches.
ghost use Rattle.std.specs.Prelude.{◌≡◌, ◌+◌, ◌*◌, ◌^◌, ◌≤◌, ◌<◌, length};
ghost use Rattle.piece_rope.specs.Window.{IsMeasured, IsPlace, IsEnd, Spans, IsRoomy};
ghost use Rattle.piece_rope.specs.{Chain.bytes_of, Sizes.AreCounted, Sizes.longest};

use crate::limits::SHORTEST_PIECE;
use crate::pieces::Pieces;
use state_memo::{Axis, Sum};
use sum_tree::visits;

/// The pieces `first..last`, which hold the bytes `start..end`.
#[derive(Clone, Copy)]
pub(crate) struct Window {
    pub first: usize,
    pub last: usize,
    pub start: usize,
    pub end: usize,
}

/// The first place after which there are more than `target` bytes. It comes with the number of
/// bytes before it.
pub(crate) fn seek(pieces: &Pieces, target: usize) -> (usize, usize)
    requires { AreCounted pieces.now.items }
    ensures { IsPlace pieces.now.items target result.0 result.1 }
{
    let (place, before) = pieces.seek(&Axis::Byte, target as u64, &mut visits());
    (place, before.bytes as usize)
}

/// The first place that all bytes up to `target` precede. It comes with the number of bytes before
/// it.
fn seek_end(pieces: &Pieces, target: usize) -> (usize, usize)
    requires measured { IsMeasured pieces.now.items }
    requires within { target ≤ length (bytes_of pieces.now.items) }
    ensures { IsEnd pieces.now.items target result.0 result.1 }
{
    let count = pieces.len();
    let (place, before) = seek(pieces, target);
    if before == target || place == count {
        return (place, before);
    }
    let behind = before + pieces.get(place).bytes().len();
    (place + 1, behind)
}

/// The pieces with the bytes `at..to`.
fn touched(pieces: &Pieces, at: usize, to: usize) -> Window
    requires measured { IsMeasured pieces.now.items }
    requires order { at ≤ to }
    requires within { to ≤ length (bytes_of pieces.now.items) }
    ensures { Spans pieces.now.items at to longest result }
{
    let (first, start) = seek(pieces, at);
    let (last, end) = seek_end(pieces, to);
    if last < first {
        return Window {
            first,
            last: first,
            start,
            end: start,
        };
    }
    Window {
        first,
        last,
        start,
        end,
    }
}

/// All pieces.
fn whole(pieces: &Pieces) -> Window
    requires { AreCounted pieces.now.items }
    ensures first { result.first ≡ 0 }
    ensures last { result.last ≡ length pieces.now.items }
    ensures start { result.start ≡ 0 }
    ensures end { result.end ≡ length (bytes_of pieces.now.items) }
{
    Window {
        first: 0,
        last: pieces.len(),
        start: 0,
        end: count_bytes(pieces),
    }
}

/// The number of all bytes.
pub(crate) fn count_bytes(pieces: &Pieces) -> usize
    requires { AreCounted pieces.now.items }
    ensures { result ≡ length (bytes_of pieces.now.items) }
{
    pieces.total().bytes as usize
}

/// The pieces that are made again if `n` bytes replace `at..to`. A neighbour is added if they would
/// be shorter than a piece, and all are made again if there is only one.
pub(crate) fn window_of(pieces: &Pieces, at: usize, to: usize, n: usize) -> Window
    requires measured { IsMeasured pieces.now.items }
    requires order { at ≤ to }
    requires within { to ≤ length (bytes_of pieces.now.items) }
    ensures spans { Spans pieces.now.items at to (2 * longest) result }
    ensures roomy { IsRoomy pieces.now.items at to n result }
{
    let count = pieces.len();
    if count <= 1 {
        return whole(pieces);
    }
    let touched = touched(pieces, at, to);
    let Window {
        first,
        last,
        start,
        end,
    } = touched;
    if n >= SHORTEST_PIECE || (at - start) + (end - to) >= SHORTEST_PIECE - n {
        return touched;
    }
    if first > 0 {
        let start = start - pieces.get(first - 1).bytes().len();
        return Window {
            first: first - 1,
            last,
            start,
            end,
        };
    }
    if last < count {
        let end = end + pieces.get(last).bytes().len();
        return Window {
            first,
            last: last + 1,
            start,
            end,
        };
    }
    touched
}
