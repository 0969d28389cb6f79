//! Text of a document, read from the pieces that hold it.
ghost use Rattle.std.specs.Prelude.{◌≡◌, ◌+◌, ◌-◌, ◌≤◌, ◌++◌, min, length, take, drop, IfOk, string_bytes};
ghost use Rattle.std.specs.Str.{chars};
ghost use Rattle.piece_rope.specs.Entry.{texts_of};

use crate::pieces::Pieces;
use state_memo::{Axis, OutOfMemory, Outcome};
use std::alloc::Global;
use sum_tree::visits;

/// Appends at most `most` code points of an outcome's text, after the first `skip`. Returns their
/// number.
fn push_part(text: &mut String, outcome: &Outcome, skip: u64, most: u64) -> Result<u64, OutOfMemory>
    requires { skip ≤ length outcome.now.text }
    ensures count { IfOk result (λ count. count ≡ min most (length (drop skip outcome.now.text))) }
    ensures part { IfOk result (λ count. chars (string_bytes text.new) ≡ chars (string_bytes text.old) ++ take count (drop skip outcome.now.text)) }
{
    let all = outcome.sum().scalars as u64;
    if skip == 0 && most >= all {
        // Most pieces are taken whole: their ends needn't be looked for.
        text.push_str(outcome.text().as_str())?;
        return Ok(all);
    }
    let count = most.min(all - skip);
    let part = outcome.text().part(skip as usize, (skip + count) as usize);
    text.push_str(part)?;
    Ok(count)
}

/// The most code points of a short text.
const SHORT: u64 = 256;

/// The bytes of the first allocation for a text. Mostly none is moved while it grows. A short text gets the most
/// that it can take. Another one gets what so many code points take by the document's mean, and an eighth more.
fn room_for(pieces: &Pieces, scalars: u64) -> usize {
    if scalars <= SHORT {
        return 4 * scalars as usize;
    }
    let all = pieces.total();
    let mean = scalars.saturating_mul(u64::from(all.utf8)) / u64::from(all.scalars).max(1);
    mean.saturating_add(mean / 8) as usize
}

/// The code points `i..j`.
pub(crate) fn text_between(
    alloc: Global,
    pieces: &Pieces,
    tail: &Outcome,
    i: u64,
    j: u64,
) -> Result<String, OutOfMemory>
    requires order { i ≤ j }
    requires within { j ≤ length (texts_of pieces.now.items ++ tail.now.text) }
    ensures { IfOk result (λ text. chars (string_bytes text) ≡ take (j - i) (drop i (texts_of pieces.now.items ++ tail.now.text))) }
{
    let count = pieces.len();
    let (first, before) = pieces.seek(&Axis::Scalar, i, &mut visits());
    let mut text = String::with_capacity(alloc, room_for(pieces, j - i))?;
    let mut place = first;
    let mut skip = i - before.scalars as u64;
    let mut left = j - i;
    'pieces: while left > 0 && place < count {
        let taken = push_part(&mut text, pieces.get(place).here(), skip, left)?;
        left -= taken;
        skip = 0;
        place += 1;
    }
    if left > 0 {
        push_part(&mut text, tail, skip, left)?;
    }
    Ok(text)
}
