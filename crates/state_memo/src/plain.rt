//! Texts whose code points are items without gaps.
ghost use Rattle.std.specs.Prelude.{◌≡◌, ◌≤◌, ◌<◌, ◌-◌, ◌*◌, ◌^◌, ℕ, List, [], true, slice_index, IfSome, MatchOption, length, pos, ◌+ℤ◌};
ghost use Rattle.std.specs.{Char.len_utf8, Str.chars};
ghost use Rattle.lane_utf.specs.Within.{within};
ghost use Rattle.decoder_core.specs.Bulk.{width_of, run_width};
ghost use Rattle.state_memo.specs.{Gathering.plain_items_from, Gathering.IsEven, Plain.IsFirst, Runs.items_of_run};

use crate::kind::ItemKind;
use crate::parts::split_at_scalar;
use crate::run::Run;
use decoder_core::Stride;
use iso2022jp::OutputState;
use lane_utf::{
    count_pair_bytes, count_scalars, count_utf16, pairs_within, utf8_within, utf16_within,
};

/// Counts the code points of a text whose items have `width` bytes together.
pub(crate) fn count_of(text: &str, width: usize, stride: Stride) -> usize
    requires { width ≡ run_width stride (chars text.now) }
    ensures { result ≡ length (chars text.now) }
{
    match stride {
        Stride::Bytes => width,
        _ => count_scalars(text),
    }
}

/// The number of bytes that the items of a text's code points have together.
pub(crate) fn width_of_text(text: &str, stride: Stride) -> usize
    ensures { result ≡ run_width stride (chars text.now) }
{
    match stride {
        Stride::Utf8 => text.len(),
        Stride::Utf16 => 2 * count_utf16(text),
        Stride::Pairs => count_pair_bytes(text),
        Stride::Bytes => count_scalars(text),
    }
}

/// Splits a text after its first code point. Returns the number of bytes of that code point's item,
/// and the rest. There is none at the end.
pub(crate) fn split_first(text: &str, stride: Stride) -> Option<(u8, &str)>
    ensures { MatchOption result (chars text.now ≡ []) (λ r. IsFirst stride (chars text.now) r.0 (chars r.1.now)) }
{
    let (first, rest) = split_at_scalar(text, 1)?;
    Some((len_width(stride, first.len()), rest))
}

/// Counts a text's leading code points whose items end within `width` bytes.
pub(crate) fn scalars_within(text: &str, stride: Stride, width: usize) -> usize
    ensures { result ≡ within (width_of stride) (chars text.now) width }
{
    match stride {
        Stride::Utf8 => utf8_within(text, width),
        Stride::Utf16 => utf16_within(text, width / 2),
        Stride::Pairs => pairs_within(text, width),
        Stride::Bytes => count_scalars(text).min(width),
    }
}

/// The run of `count` items of a text's code points between two places. There is one if all items have the same
/// length.
pub(crate) fn even_run(
    count: usize,
    from: i16,
    end: i16,
    stride: Stride,
    output: OutputState,
) -> Option<Run>
    ensures { (cs : List ℕ) → count ≡ length cs → end ≡ from +ℤ pos (run_width stride cs)
        → IfSome result (λ run. items_of_run run ≡ plain_items_from stride from output cs) }
{
    let width = usize::try_from(i32::from(end) - i32::from(from)).ok()?;
    let step = even_width(count, width, stride)?;
    let more = u16::try_from(count.checked_sub(1)?).ok()?;
    Some(Run {
        last: end,
        more,
        step,
        kind: ItemKind::one(output),
    })
}

/// The common length of `count` items of `width` bytes together. There is one if all are as short as
/// possible, or as long.
fn even_width(count: usize, width: usize, stride: Stride) -> Option<u8>
    ensures { (cs : List ℕ) → count ≡ length cs → width ≡ run_width stride cs
        → IfSome result (λ step. IsEven stride step cs) }
{
    let twice = is_twice(width, count);
    match stride {
        Stride::Utf8 if width == count => Some(1),
        Stride::Utf16 if twice => Some(2),
        Stride::Pairs if width == count => Some(1),
        Stride::Pairs if twice => Some(2),
        Stride::Bytes => Some(1),
        _ => None,
    }
}

/// Whether a number is twice the other.
#[inline(always)]
fn is_twice(number: usize, half: usize) -> bool
    ensures { result ≡ true → number ≡ 2 * half }
{
    number % 2 == 0 && number / 2 == half
}

/// The start of the first item and the end of the last one. The items have `width` bytes together and end at
/// `end`.
pub(crate) fn places(width: usize, end: i64) -> Option<(i16, i16)>
    ensures end { IfSome result (λ places. places.1 ≡ end) }
    ensures from { IfSome result (λ places. end ≡ places.0 +ℤ pos width) }
{
    let last = i16::try_from(end).ok()?;
    let width = i16::try_from(width).ok()?;
    Some((last.checked_sub(width)?, last))
}

/// The lengths in bytes of items with one to four UTF-8 bytes.
pub(crate) fn widths_of(stride: Stride) -> [u8; 4]
    ensures { (c : ℕ) → slice_index result (len_utf8 c - 1) ≡ width_of stride c }
{
    [
        len_width(stride, 1),
        len_width(stride, 2),
        len_width(stride, 3),
        len_width(stride, 4),
    ]
}

/// The length in bytes of an item with a code point of this UTF-8 length.
pub(crate) fn len_width(stride: Stride, len: usize) -> u8
    requires { len ≤ 4 }
    ensures { (c : ℕ) → len ≡ len_utf8 c → result ≡ width_of stride c }
{
    match stride {
        Stride::Utf8 => len as u8,
        Stride::Utf16 if len < 4 => 2,
        Stride::Utf16 => 4,
        Stride::Pairs if len < 2 => 1,
        Stride::Pairs => 2,
        Stride::Bytes => 1,
    }
}
