//! Items under way that are the last code points of a text.
ghost use Rattle.std.specs.Prelude.{◌≡◌, ◌++◌, ℕ, List, [], ◌∷◌, Some, IfSome, length};
ghost use Rattle.state_memo.specs.Items.{kept_item};
ghost use Rattle.state_memo.specs.Plain.{HasStride, IsPart, IsTail, IsWider, part_items, stride_of, tail_items};
ghost use Rattle.decoder_core.specs.declared.item.Item.TheVariants.{One};

use crate::plain::len_width;
use decoder_core::Stride;
use iso2022jp::OutputState;

/// Code points of a text, each an item, without gaps.
#[derive(Clone, Copy)]
pub(crate) struct PlainPart {
    /// The number of these code points.
    pub count: usize,
    /// The number of their bytes in UTF-8.
    pub len: usize,
    /// The start of the first item, in bytes from the piece's start.
    pub from: i16,
    /// The end of the last item.
    pub end: i16,
    /// The length of each.
    pub stride: Stride,
    /// The output state after each.
    pub output: OutputState,
}

impl PlainPart {
    /// The length of the items. There is none if each is ASCII, and one byte.
    fn needed(self) -> Option<Stride>
        ensures long { (cs : List ℕ) → IsPart self cs → HasStride result cs }
        ensures wider { IsWider result (Some self.stride) }
    {
        if self.len == self.count && self.stride != Stride::Utf16 {
            None
        } else {
            Some(self.stride)
        }
    }
}

/// Items under way that are the last code points of a text, without gaps. They become no run while what follows
/// continues in the same way.
#[derive(Clone, Copy)]
pub(crate) struct PlainTail {
    /// The number of code points before them.
    pub before: usize,
    /// The start of the first item, in bytes from the piece's start.
    pub from: i16,
    /// The end of the last item.
    pub end: i16,
    /// The length of each; none while each is ASCII, and one byte.
    pub stride: Option<Stride>,
    /// The output state after each.
    pub output: OutputState,
}

impl PlainTail {
    /// The tail of a part after `before` code points.
    pub(crate) fn of(before: usize, part: PlainPart) -> PlainTail
        ensures before { result.before ≡ before }
        ensures tail { (cs ds : List ℕ) → before ≡ length cs → IsPart part ds → IsTail result (cs ++ ds) }
        ensures items { (cs ds : List ℕ) → before ≡ length cs → IsPart part ds → tail_items (Some result) (cs ++ ds) ≡ part_items part ds }
    {
        PlainTail {
            before,
            from: part.from,
            end: part.end,
            stride: part.needed(),
            output: part.output,
        }
    }

    /// The length of each.
    pub(crate) fn length(self) -> Stride
        ensures { result ≡ stride_of self.stride }
    {
        match self.stride {
            Some(stride) => stride,
            None => Stride::Bytes,
        }
    }

    /// The tail with a part after it, if the part continues in the same way.
    pub(crate) fn with(self, part: PlainPart) -> Option<PlainTail>
        ensures tail { (cs ds : List ℕ) → IsTail self cs → IsPart part ds → IfSome result (λ t. IsTail t (cs ++ ds)) }
        ensures items { (cs ds : List ℕ) → IsTail self cs → IsPart part ds
            → IfSome result (λ t. tail_items (Some t) (cs ++ ds) ≡ tail_items (Some self) cs ++ part_items part ds) }
    {
        let (tail, added) = (self, part);
        if self.end != part.from || self.output != part.output {
            return None;
        }
        let stride = wider(self.stride, part.needed())?;
        Some(PlainTail {
            before: tail.before,
            from: tail.from,
            end: added.end,
            stride,
            output: tail.output,
        })
    }

    /// The tail with an item of one code point after it, if it continues alike.
    // Once in a part: what is left in the loop over the bytes is small.
    #[inline(never)]
    pub(crate) fn with_one(self, c: char, end: i16, output: OutputState) -> Option<PlainTail>
        ensures tail { (cs : List ℕ) → IsTail self cs → IfSome result (λ t. IsTail t (cs ++ c ∷ [])) }
        ensures items { (cs : List ℕ) → IsTail self cs
            → IfSome result (λ t. tail_items (Some t) (cs ++ c ∷ []) ≡ tail_items (Some self) cs ++ kept_item (One c) end output ∷ []) }
    {
        // Behind ASCII alone most are pairs.
        let stride = match self.stride {
            Some(stride) => stride,
            None => Stride::Pairs,
        };
        let len = c.len_utf8();
        let from = end.checked_sub(i16::from(len_width(stride, len)))?;
        self.with(PlainPart {
            count: 1,
            len,
            from,
            end,
            stride,
            output,
        })
    }
}

/// The length of items of two groups together, from the lengths of each group.
fn wider(first: Option<Stride>, second: Option<Stride>) -> Option<Option<Stride>>
    ensures first { IfSome result (λ both. IsWider first both) }
    ensures second { IfSome result (λ both. IsWider second both) }
{
    match (first, second) {
        (None, None) => Some(None),
        (None, Some(stride)) | (Some(stride), None) => {
            if stride == Stride::Utf16 {
                return None;
            }
            Some(Some(stride))
        }
        (Some(one), Some(other)) => {
            if one != other {
                return None;
            }
            Some(Some(one))
        }
    }
}
