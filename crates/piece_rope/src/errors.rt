//! Errors of a document.
ghost use Rattle.std.specs.Prelude.{◌≡◌, ◌+◌, ◌-◌, ◌≤◌, [], length, take, drop, slice_get, IfOk};
ghost use Rattle.piece_rope.specs.Errors.{all_errors, last_at, last_from, AreFirstOf};
ghost use Rattle.piece_rope.specs.{Entry.sums_of, Sizes.CanJoin};

use crate::error_cursor::ErrorCursor;
use crate::error_places::push_errors;
use crate::pieces::Pieces;
use enc_names::Place;
use state_memo::{OutOfMemory, Outcome, Sum};
use std::alloc::Global;
use sum_tree::{Dimension, visits};

/// The number of errors, as a dimension of sums.
pub struct ErrorCount;

impl Dimension<Sum> for ErrorCount {
    ghost use Rattle.piece_rope.specs.ErrorCount.{errors_of_sum, errors-zero, errors-more};

    ghost measure = { errors_of_sum };

    fn of(&self, sum: &Sum) -> u64 {
        sum.errors as u64
    }

    fn of_join(&self, sum: &Sum, other: &Sum) -> u64 {
        sum.errors as u64 + other.errors as u64
    }

    ghost zero = { errors-zero };

    ghost monotone = { errors-more };
}

/// The end of the last item before piece number `place`. It is the end of the byte order mark if
/// there is no item. `before` is the number of bytes before the piece.
fn end_before(pieces: &Pieces, place: usize, before: u32, bom: u64) -> u64
    requires within { place ≤ length pieces.now.items }
    requires before { before ≡ (sums_of (take place pieces.now.items)).bytes }
    ensures { result ≡ last_from 0 bom (take place pieces.now.items) }
{
    let mut left = place;
    let mut base = before;
    'pieces: while left > 0 {
        left -= 1;
        let here = pieces.get(left).here();
        base -= here.sum().bytes;
        if let Some(item) = here.items().last() {
            return u64::from(base).saturating_add_signed(item.end);
        }
    }
    bom
}

/// The end of the last item of an outcome that begins at byte `base`. It is `from` if there is no
/// item.
fn end_behind(outcome: &Outcome, base: u32, from: u64) -> u64
    ensures { result ≡ last_at base from outcome.now.items }
{
    match outcome.items().last() {
        Some(item) => u64::from(base).saturating_add_signed(item.end),
        None => from,
    }
}

/// The errors of one piece, starting at number `n` of all errors. It is the piece that contains error
/// number `n`. The pieces follow a byte order mark of `bom` bytes.
fn errors_behind<'p>(pieces: &'p Pieces, tail: &'p Outcome, bom: u64, n: u64) -> ErrorCursor<'p>
    ensures first { AreFirstOf result (drop n (all_errors bom pieces.now.items tail.now)) }
    ensures some { result ≡ [] → drop n (all_errors bom pieces.now.items tail.now) ≡ [] }
{
    let (place, before) = pieces.seek(&ErrorCount, n, &mut visits());
    let base = before.bytes;
    let from = end_before(pieces, place, base, bom);
    let left = n - before.errors as u64;
    if place < pieces.len() {
        return ErrorCursor::at(pieces.get(place).here(), base, from, left);
    }
    ErrorCursor::at(tail, base, from, left)
}

/// The place of the first error.
pub(crate) fn first_place(pieces: &Pieces, tail: &Outcome, bom: u64) -> Option<Place>
    ensures { result ≡ slice_get (all_errors bom pieces.now.items tail.now) 0 }
{
    errors_behind(pieces, tail, bom, 0).next()
}

/// The places of the errors `from..to`. The first is found by the sums before its piece, each other
/// from the one before.
pub(crate) fn errors_between(
    alloc: Global,
    pieces: &Pieces,
    tail: &Outcome,
    bom: u64,
    from: u64,
    to: u64,
) -> Result<Vec<Place>, OutOfMemory>
    requires order { from ≤ to }
    requires within { to ≤ length (all_errors bom pieces.now.items tail.now) }
    ensures { IfOk result (λ places. places.items ≡ take (to - from) (drop from (all_errors bom pieces.now.items tail.now))) }
{
    let count = pieces.len();
    let (first, before) = pieces.seek(&ErrorCount, from, &mut visits());
    // All pieces together have fewer than 2^32 bytes.
    let _bytes = pieces.total().bytes;
    let mut places = Vec::with_capacity(alloc, (to - from) as usize)?;
    let mut base = before.bytes;
    let mut begin = end_before(pieces, first, base, bom);
    let mut place = first;
    let mut skip = from - before.errors as u64;
    let mut left = to - from;
    'pieces: while left > 0 && place < count {
        let here = pieces.get(place).here();
        let taken = push_errors(here, base, begin, skip, &mut places, left);
        left -= taken;
        begin = end_behind(here, base, begin);
        base += here.sum().bytes;
        skip = 0;
        place += 1;
    }
    if left > 0 {
        push_errors(tail, base, begin, skip, &mut places, left);
    }
    Ok(places)
}
