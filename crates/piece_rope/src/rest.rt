//! Taking bytes off a text that is in parts. No text is copied.
ghost use Rattle.std.specs.Prelude.{◌≡◌, ◌≢◌, ◌+◌, ◌≤◌, ◌++◌, ℕ, List, length, take, drop, slice_get, Some, IfSome, IfNone};
ghost use Rattle.std.specs.Str.{encode_utf8_all};
ghost use Rattle.state_memo.specs.declared.outcome.Outcome.{Outcome as Part};
ghost use Rattle.piece_rope.specs.Compare.{IsMatch, rest_of};
ghost use Rattle.piece_rope.specs.Parts.{parts_of, edited_parts, text_in};

use crate::edited::{Edited, part_at};
use crate::scalars::scalars_between;
use state_memo::Outcome;

/// The rest of the text that an edit would leave. It is the rest of a partly matched part, and the
/// parts from number `next`.
#[derive(Clone, Copy)]
pub(crate) struct Rest<'a> {
    pub head: &'a [u8],
    pub next: usize,
}

/// The number of common bytes of two slices, if one begins with the other.
pub(crate) fn matched(head: &[u8], left: &[u8]) -> Option<usize>
    ensures some { IfSome result (λ n. IsMatch head.now left.now n) }
    ensures none { IfNone result ((x y : List ℕ) → head.now ++ x ≢ left.now ++ y) }
{
    let here = head.len().min(left.len());
    if head[..here] == left[..here] {
        Some(here)
    } else {
        None
    }
}

/// The rest after some bytes, if the rest begins with these.
pub(crate) fn behind<'a>(edited: Edited<'a>, rest: Rest<'a>, part: &[u8]) -> Option<Rest<'a>>
    ensures some { IfSome result (λ left. rest_of (edited_parts edited.entry.pieces.now.items edited.entry.edit.now) rest.entry.head.now rest.entry.next
        ≡ part.now ++ rest_of (edited_parts edited.entry.pieces.now.items edited.entry.edit.now) left.head.now left.next) }
    ensures none { IfNone result ((left : List ℕ)
        → rest_of (edited_parts edited.entry.pieces.now.items edited.entry.edit.now) rest.entry.head.now rest.entry.next ≢ part.now ++ left) }
{
    let mut head = rest.head;
    let mut next = rest.next;
    let mut left = part;
    'parts: loop {
        let here = matched(head, left)?;
        head = &head[here..];
        left = &left[here..];
        if left.is_empty() {
            return Some(Rest { head, next });
        }
        head = edited.part(next)?.text().as_str().as_bytes();
        next += 1;
    }
}

/// The rest after `count` code points of an unchanged document, if it begins with these. They follow
/// the first `skip` code points of the parts from number `place`.
pub(crate) fn behind_standing<'a>(
    edited: Edited<'a>,
    rest: Rest<'a>,
    tail: &Outcome,
    place: usize,
    skip: u64,
    count: u64,
) -> Option<Rest<'a>>
    requires enough { skip + count ≤ length (text_in (drop place (parts_of edited.pieces.now.items tail.now))) }
    requires begun { (part : Part) → slice_get (parts_of edited.pieces.now.items tail.now) place ≡ Some part → skip ≤ length part.text }
    ensures some { IfSome result (λ left. rest_of (edited_parts edited.entry.pieces.now.items edited.entry.edit.now) rest.entry.head.now rest.entry.next
        ≡ encode_utf8_all (take count (drop skip (text_in (drop place (parts_of edited.entry.pieces.now.items tail.now)))))
        ++ rest_of (edited_parts edited.entry.pieces.now.items edited.entry.edit.now) left.head.now left.next) }
    ensures none { IfNone result ((left : List ℕ)
        → rest_of (edited_parts edited.entry.pieces.now.items edited.entry.edit.now) rest.entry.head.now rest.entry.next
        ≢ encode_utf8_all (take count (drop skip (text_in (drop place (parts_of edited.entry.pieces.now.items tail.now))))) ++ left) }
{
    let mut rest = rest;
    let mut place = place;
    let mut skip = skip;
    let mut left = count;
    'parts: while left > 0 {
        let Some(part) = part_at(edited.pieces, tail, place) else {
            unreachable!();
        };
        let taken = left.min(part.sum().scalars as u64 - skip);
        let Some(here) = scalars_between(part.text().as_str(), skip, skip + taken) else {
            unreachable!();
        };
        rest = behind(edited, rest, here.as_bytes())?;
        left -= taken;
        skip = 0;
        place += 1;
    }
    Some(rest)
}
