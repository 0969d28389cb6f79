//! Numbers of a text and its items.
ghost use Rattle.std.specs.Prelude.{◌≡◌, ◌<◌, ◌^◌, false, length, IfSome};
ghost use Rattle.std.specs.Str.{chars};
ghost use Rattle.lane_ascii.specs.Marks.{marks, ends_cr};
ghost use Rattle.state_memo.specs.{Items.errors_in, Items.all_scalars, Lines.begins_lf, Sums.sum_of};

use crate::items::ItemRuns;
use crate::sum::Sum;
use lane_ascii::count_line_ends;
use lane_utf::count_utf16_of;

/// The numbers of a part of a document. They come from its length in bytes and two passes over its text. `erring` says
/// whether one of the items may be an error. There are none if they don't fit in 32 bits.
pub(crate) fn sum_of(
    bytes: usize,
    text: &str,
    scalars: usize,
    items: &ItemRuns,
    erring: bool,
) -> Option<Sum>
    requires scalars { scalars ≡ length (chars text.now) }
    requires counted { length (chars text.now) ≡ all_scalars items.now }
    requires none { erring ≡ false → errors_in items.now ≡ 0 }
    ensures { IfSome result (λ s. s ≡ sum_of bytes (chars text.now) items.now) }
{
    let most = u32::MAX as usize;
    let errors = count_errors(items, erring);
    if bytes > most || text.len() > most || errors > most as u64 {
        return None;
    }
    Some(Sum {
        bytes: bytes as u32,
        scalars: scalars as u32,
        utf16: count_utf16_of(text, scalars) as u32,
        utf8: text.len() as u32,
        errors: errors as u32,
        marks: count_marks(text, false) as u32,
        lf_first: begins_lf(text),
        cr_last: ends_cr(text, false),
    })
}

/// Counts the items that are errors. They are counted only if one may be.
fn count_errors(items: &ItemRuns, erring: bool) -> u64
    requires few { all_scalars items.now < 2 ^ 64 }
    requires none { erring ≡ false → errors_in items.now ≡ 0 }
    ensures { result ≡ errors_in items.now }
{
    if erring { items.count_errors() } else { 0 }
}

/// Counts the line marks. `after_cr` says whether a CR precedes the text.
pub fn count_marks(text: &str, after_cr: bool) -> u64
    ensures { result ≡ marks after_cr (chars text.now) }
{
    count_line_ends(text.as_bytes(), after_cr) as u64
}

/// Whether the text begins with LF.
pub fn begins_lf(text: &str) -> bool
    ensures { result ≡ begins_lf (chars text.now) }
{
    match text.as_bytes().first() {
        Some(byte) => *byte == b'\n',
        None => false,
    }
}

/// Whether the text ends in CR. For an empty text, `after_cr` says whether a CR precedes it.
pub fn ends_cr(text: &str, after_cr: bool) -> bool
    ensures { result ≡ ends_cr after_cr (chars text.now) }
{
    match text.as_bytes().last() {
        Some(byte) => *byte == b'\r',
        None => after_cr,
    }
}
