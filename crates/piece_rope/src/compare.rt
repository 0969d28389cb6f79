//! Checks whether an edit keeps the text outside of the range that it replaces.
//!
//! It compares the new pieces with those that they replace, and the pieces that contain the ends of the
//! range.
ghost use Rattle.std.specs.Prelude.{◌≡◌, ◌≢◌, ◌+◌, ◌-◌, ◌≤◌, ◌<◌, ◌++◌, ℕ, [], List, length, take, drop, Decides, IfSome, IfNone};
ghost use Rattle.std.specs.Str.{chars, encode_utf8_all};
ghost use Rattle.piece_rope.specs.Compare.{IsSpan, rest_of, wanted};
ghost use Rattle.piece_rope.specs.Parts.{parts_of, edited_parts, made_pieces, text_in};
ghost use Rattle.piece_rope.specs.{Edits.replaced, Entry.texts_of, Sizes.CanJoin};

use crate::edited::Edited;
use crate::lengths::whole_sum;
use crate::rest::{Rest, behind, behind_standing};
use crate::scalars::scalar_count;
use crate::span::Span;
use state_memo::{Axis, Outcome};
use sum_tree::visits;

/// The number of code points in the first `place` pieces.
fn scalars_in(edited: Edited<'_>, place: usize) -> u64
    requires { place ≤ length edited.pieces.now.items }
    ensures { result ≡ length (texts_of (take place edited.entry.pieces.now.items)) }
{
    edited.pieces.prefix(place, &mut visits()).scalars as u64
}

/// The rest of a number after the code points of the new pieces.
fn made_counted(edited: Edited<'_>, most: u64) -> Option<u64>
    ensures some { IfSome result (λ left. left + length (texts_of (made_pieces edited.entry.pieces.now.items edited.entry.edit.now)) ≡ most) }
    ensures none { IfNone result (most < length (texts_of (made_pieces edited.entry.pieces.now.items edited.entry.edit.now))) }
{
    let end = edited.edit.fresh.len() + edited.edit.renewals.len();
    let mut left = most;
    let mut place = 0;
    'pieces: while place < end {
        let Some(part) = edited.part(edited.edit.first + place) else {
            unreachable!();
        };
        left = left.checked_sub(part.sum().scalars as u64)?;
        place += 1;
    }
    Some(left)
}

/// Whether the text that the edit would leave has `wanted` code points. Only numbers are read.
fn has_scalars(edited: Edited<'_>, wanted: u64) -> bool
    ensures { Decides result (length (text_in (edited_parts edited.entry.pieces.now.items edited.entry.edit.now)) ≡ wanted) }
{
    let edit = edited.edit;
    let changed = edit.last + edit.renewals.len();
    let before = scalars_in(edited, edit.first);
    let behind = edited.pieces.total().scalars as u64 - scalars_in(edited, changed);
    let Some(left) = wanted.checked_sub(before) else {
        return false;
    };
    let Some(left) = left.checked_sub(behind) else {
        return false;
    };
    match made_counted(edited, left) {
        Some(left) => left == edit.tail.sum().scalars as u64,
        None => false,
    }
}

/// The code points that the edit can have changed. It adds those of the pieces that contain code
/// points number `i` and `j`.
fn compared(edited: Edited<'_>, tail: &Outcome, i: u64, j: u64) -> Span
    requires few { CanJoin edited.pieces.now.items }
    requires tail { tail.now.sum.bytes ≡ 0 }
    requires ends { edited.edit.now.tail.exit ≡ tail.now.exit → edited.edit.now.tail.text ≡ tail.now.text }
    requires within { j ≤ length (text_in (parts_of edited.pieces.now.items tail.now)) }
    ensures { IsSpan (parts_of edited.entry.pieces.now.items tail.now) (edited_parts edited.entry.pieces.now.items edited.entry.edit.now) i j result }
{
    let (pieces, edit) = (edited.pieces, edited.edit);
    let (from, _) = pieces.seek(&Axis::Scalar, i, &mut visits());
    let (to, _) = pieces.seek(&Axis::Scalar, j, &mut visits());
    let first = from.min(edit.first);
    let before = scalars_in(edited, first);
    if to == pieces.len() || edit.tail.exit() != tail.exit() {
        let end = whole_sum(pieces, tail).scalars as u64;
        return Span { first, before, end };
    }
    let changed = edit.last + edit.renewals.len();
    let end = scalars_in(edited, changed.max(to + 1));
    Span { first, before, end }
}

/// The rest of the text that the edit would leave, after the wanted code points.
fn behind_wanted<'a>(
    edited: Edited<'a>,
    tail: &Outcome,
    span: Span,
    i: u64,
    j: u64,
    text: &str,
) -> Option<Rest<'a>>
    requires span { IsSpan (parts_of edited.pieces.now.items tail.now) (edited_parts edited.pieces.now.items edited.edit.now) i j span }
    requires order { i ≤ j }
    ensures some { IfSome result (λ left. encode_utf8_all (text_in (drop span.first (edited_parts edited.entry.pieces.now.items edited.entry.edit.now)))
        ≡ encode_utf8_all (wanted (text_in (parts_of edited.entry.pieces.now.items tail.now)) span i j (chars text.now))
        ++ rest_of (edited_parts edited.entry.pieces.now.items edited.entry.edit.now) left.head.now left.next) }
    ensures none { IfNone result ((left : List ℕ)
        → encode_utf8_all (text_in (drop span.first (edited_parts edited.entry.pieces.now.items edited.entry.edit.now)))
        ≢ encode_utf8_all (wanted (text_in (parts_of edited.entry.pieces.now.items tail.now)) span i j (chars text.now)) ++ left) }
{
    let rest = Rest {
        head: &[],
        next: span.first,
    };
    let rest = behind_standing(edited, rest, tail, span.first, 0, i - span.before)?;
    let rest = behind(edited, rest, text.as_bytes())?;
    let (place, before) = edited.pieces.seek(&Axis::Scalar, j, &mut visits());
    let front = before.scalars as u64;
    behind_standing(edited, rest, tail, place, j - front, span.end - j)
}

/// Whether the edit would leave the old text with the code points `i..j` replaced. The numbers of
/// code points are compared first.
pub(crate) fn keeps_text(edited: Edited<'_>, tail: &Outcome, i: u64, j: u64, text: &str) -> bool
    requires few { CanJoin edited.pieces.now.items }
    requires tail { tail.now.sum.bytes ≡ 0 }
    requires ends { edited.edit.now.tail.exit ≡ tail.now.exit → edited.edit.now.tail.text ≡ tail.now.text }
    requires order { i ≤ j }
    requires within { j ≤ length (text_in (parts_of edited.pieces.now.items tail.now)) }
    ensures { Decides result (text_in (edited_parts edited.entry.pieces.now.items edited.entry.edit.now)
        ≡ replaced (text_in (parts_of edited.entry.pieces.now.items tail.now)) i j (chars text.now)) }
{
    let wanted = whole_sum(edited.pieces, tail).scalars as u64 - (j - i) + scalar_count(text);
    if !has_scalars(edited, wanted) {
        return false;
    }
    let span = compared(edited, tail, i, j);
    behind_wanted(edited, tail, span, i, j, text).is_some()
}
