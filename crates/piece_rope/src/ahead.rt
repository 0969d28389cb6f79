//! The text that a change is to leave, read along with what is decoded, so that an edit is given up
//! as soon as the two differ. No text is copied.
ghost use Rattle.std.specs.Prelude.{◌≡◌, ◌≢◌, ◌+◌, ◌≤◌, ◌++◌, ℕ, List, length, take, drop, option_copied, option_map, slice_get, IfOk, IfSome, IfNone};
ghost use Rattle.std.specs.Str.{encode_utf8_all};
ghost use Rattle.piece_rope.specs.Ahead.{Awaits, GoesOn, IsAsked, IsUnlike, Stops, Strays, changed_text, chunks, left_of, together};
ghost use Rattle.piece_rope.specs.{Chunks.written, Entry.here_of, Entry.texts_of, Parts.parts_of, Parts.text_in, Sizes.most_pieces};

use crate::change::Change;
use crate::edited::part_at;
use crate::entered::Entered;
use crate::fault::DocFault;
use crate::pieces::Pieces;
use crate::rest::matched;
use crate::wanted::Wanted;
use state_memo::{AnyState, Axis, Outcome, split_at_scalar};
use sum_tree::visits;

/// The rest of such a text: what is left of a partly matched chunk, and the chunks from number
/// `next`.
#[derive(Clone, Copy)]
pub(crate) struct Ahead<'a> {
    wanted: Wanted<'a>,
    head: &'a [u8],
    next: usize,
}

/// A part cut at code point number `n`: the text before it and after.
#[derive(Clone, Copy)]
struct Cut<'a> {
    place: usize,
    front: &'a [u8],
    back: &'a [u8],
}

/// Finds where the text is cut at code point number `n`. The text is that of these pieces and of
/// the end after them.
fn cut_at<'a>(pieces: &'a Pieces, tail: &'a Outcome, n: u64) -> Cut<'a>
    requires { n ≤ length (text_in (parts_of pieces.now.items tail.now)) }
    ensures place { result.place ≤ length pieces.now.items }
    ensures front { encode_utf8_all (take n (text_in (parts_of pieces.now.items tail.now)))
        ≡ encode_utf8_all (text_in (take result.place (parts_of pieces.now.items tail.now))) ++ result.front.now }
    ensures back { encode_utf8_all (drop n (text_in (parts_of pieces.now.items tail.now)))
        ≡ result.back.now ++ encode_utf8_all (text_in (drop (result.place + 1) (parts_of pieces.now.items tail.now))) }
{
    let (place, before) = pieces.seek(&Axis::Scalar, n, &mut visits());
    let Some(part) = part_at(pieces, tail, place) else {
        unreachable!();
    };
    let within = (n - before.scalars as u64) as usize;
    let Some((front, back)) = split_at_scalar(part.text().as_str(), within) else {
        unreachable!();
    };
    Cut {
        place,
        front: front.as_bytes(),
        back: back.as_bytes(),
    }
}

/// The text of part number `place`, in bytes.
fn written_at<'a>(pieces: &'a Pieces, tail: &'a Outcome, place: usize) -> Option<&'a [u8]>
    ensures { option_copied result ≡ option_map written (slice_get (parts_of pieces.now.items tail.now) place) }
{
    let part = part_at(pieces, tail, place)?;
    Some(part.text().as_str().as_bytes())
}

impl<'a> Wanted<'a> {
    /// The text that the change is to leave.
    fn new(change: Change<'a>) -> Wanted<'a>
        requires few { length change.pieces.now.items ≤ most_pieces }
        requires order { change.i ≤ change.j }
        requires within { change.j ≤ length (text_in (parts_of change.pieces.now.items change.tail.now)) }
        ensures pieces { result.pieces.now.items ≡ change.entry.pieces.now.items }
        ensures text { together (chunks result) ≡ encode_utf8_all (changed_text change.entry) }
    {
        let (pieces, tail) = (change.pieces, change.tail);
        let from = cut_at(pieces, tail, change.i);
        let to = cut_at(pieces, tail, change.j);
        Wanted {
            pieces,
            tail,
            from: from.place,
            front: from.front,
            text: change.text.as_bytes(),
            back: to.back,
            to: to.place,
        }
    }

    /// Chunk number `number`.
    fn chunk(&self, number: usize) -> Option<&'a [u8]>
        ensures { option_copied result ≡ slice_get (chunks self.now) number }
    {
        if number < self.from {
            return written_at(self.pieces, self.tail, number);
        }
        match number - self.from {
            0 => Some(self.front),
            1 => Some(self.text),
            2 => Some(self.back),
            behind => self.chunk_behind(behind - 3),
        }
    }

    /// The text after the range in the part at `place`.
    fn chunk_behind(&self, place: usize) -> Option<&'a [u8]>
        ensures { option_copied result ≡ option_map written (slice_get (parts_of self.now.pieces.now.items self.now.tail.now) (self.now.to + 1 + place)) }
    {
        if place >= self.pieces.len() - self.to {
            return None;
        }
        written_at(self.pieces, self.tail, self.to + 1 + place)
    }
}

impl<'a> Ahead<'a> {
    /// The wanted text from part number `first`. `None` if the range begins before that part.
    fn from_part(change: Change<'a>, first: usize) -> Option<Ahead<'a>>
        requires few { length change.pieces.now.items ≤ most_pieces }
        requires order { change.i ≤ change.j }
        requires within { change.j ≤ length (text_in (parts_of change.pieces.now.items change.tail.now)) }
        ensures { IfSome result (λ ahead. encode_utf8_all (changed_text change.entry)
            ≡ encode_utf8_all (texts_of (take first change.entry.pieces.now.items)) ++ left_of ahead) }
    {
        let wanted = Wanted::new(change);
        if wanted.from < first {
            return None;
        }
        Some(Ahead {
            wanted,
            head: &[],
            next: first,
        })
    }

    /// The rest after some bytes, if the rest begins with these.
    fn behind(&self, part: &[u8]) -> Option<Ahead<'a>>
        ensures some { IfSome result (λ left. left_of self.now ≡ part.now ++ left_of left) }
        ensures none { IfNone result ((left : List ℕ) → left_of self.now ≢ part.now ++ left) }
    {
        let mut head = self.head;
        let mut next = self.next;
        let mut left = part;
        'chunks: loop {
            let here = matched(head, left)?;
            head = &head[here..];
            left = &left[here..];
            if left.is_empty() {
                return Some(Ahead {
                    wanted: self.wanted,
                    head,
                    next,
                });
            }
            let chunk = self.wanted.chunk(next)?;
            head = chunk;
            next += 1;
        }
    }
}

/// The wanted text after what a piece decodes to. Refused with `NotKept` if the piece's text isn't
/// what is wanted first. If nothing is wanted, any text is right.
pub(crate) fn past<'a>(
    ahead: Option<Ahead<'a>>,
    piece: &Entered,
) -> Result<Option<Ahead<'a>>, DocFault>
    ensures on { IfOk result (λ next. GoesOn ahead.entry (here_of piece.now).text next) }
    ensures stops { Stops (Strays ahead.entry (here_of piece.now).text) result }
{
    let Some(ahead) = ahead else {
        return Ok(None);
    };
    let text = piece.here().text().as_str();
    match ahead.behind(text.as_bytes()) {
        Some(left) => Ok(Some(left)),
        None => Err(DocFault::NotKept),
    }
}

/// The wanted text after what some pieces decode to.
fn past_all<'a>(ahead: Option<Ahead<'a>>, pieces: &[Entered]) -> Result<Option<Ahead<'a>>, DocFault>
    ensures on { IfOk result (λ next. GoesOn ahead.entry (texts_of pieces.now) next) }
    ensures stops { Stops (Strays ahead.entry (texts_of pieces.now)) result }
{
    let mut left = ahead;
    let mut place = 0;
    'pieces: while place < pieces.len() {
        left = past(left, &pieces[place])?;
        place += 1;
    }
    Ok(left)
}

/// The text that a change wants after its new pieces. These follow the pieces before number `first`,
/// and the pieces from number `last` are to be entered in another state, `state`. Nothing is
/// compared if they aren't, or if the range begins before number `first`.
pub(crate) fn wanted_behind<'a>(
    pieces: &Pieces,
    change: Option<Change<'a>>,
    first: usize,
    last: usize,
    made: &[Entered],
    state: AnyState,
) -> Result<Option<Ahead<'a>>, DocFault>
    requires few { length pieces.now.items ≤ most_pieces }
    requires asked { IsAsked pieces.now.items change }
    ensures awaits { IfOk result (λ ahead. Awaits change.entry (texts_of (take first pieces.now.items ++ made.now)) ahead) }
    ensures stops { Stops (IsUnlike change.entry (texts_of (take first pieces.now.items ++ made.now))) result }
{
    let Some(change) = change else {
        return Ok(None);
    };
    if last >= pieces.len() || pieces.get(last).entry() == state {
        return Ok(None);
    }
    past_all(Ahead::from_part(change, first), made)
}
