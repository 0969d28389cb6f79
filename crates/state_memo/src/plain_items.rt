//! Items that are code points of a piece's text, without runs.
ghost use Rattle.std.specs.Prelude.{◌≡◌, ◌+◌, ◌-◌, ◌^◌, ◌<◌, ◌++◌, ℕ, List, Some, IfSome, length, slice_get, pos, ◌+ℤ◌, ◌<ℤ◌};
ghost use Rattle.std.specs.Str.{chars};
ghost use Rattle.decoder_core.specs.Bulk.{run_width};
ghost use Rattle.state_memo.specs.Items.{errors_in, all_scalars, item_of, scalars_before};
ghost use Rattle.state_memo.specs.{Gathering.plain_items_from, Runs.items_of_last, Runs.items_of_run, Runs.items_of_runs};
ghost use Rattle.state_memo.specs.Plain.{IsTail, code_points_behind, item_behind, stride_of, tail_items};

use crate::ended::Ended;
use crate::kind::ItemKind;
use crate::outcome::Text;
use crate::parts::split_at_scalar;
use crate::plain::{even_run, scalars_within, split_first, width_of_text};
use crate::plain_runs::PlainRuns;
use crate::run::Run;
use crate::tail::PlainTail;
use decoder_core::Stride;
use iso2022jp::OutputState;
use lane_utf::count_scalars;
use std::marker::Model;

/// Items that are the code points of a piece's text, one each and without gaps. A run may precede them. All that must
/// be known about them is counted in the text.
#[derive(Drop)]
pub(crate) struct PlainItems {
    /// The piece's text.
    text: Text,
    /// The items in front.
    front: Option<Run>,
    /// The start of the first item after the run, in bytes from the piece's start.
    from: i16,
    /// The length of each.
    stride: Stride,
    /// The output state after each.
    output: OutputState,
}

impl Model for PlainItems {
    ghost use Rattle.std.specs.Prelude.{◌++◌, ◌^◌, List, pos, ◌+ℤ◌, ◌<ℤ◌};
    ghost use Rattle.decoder_core.specs.Bulk.{run_width};
    ghost use Rattle.state_memo.specs.{Gathering.plain_items_from, Plain.code_points_behind, Runs.items_of_last};
    ghost use Rattle.state_memo.specs.declared.ended.Ended.{Ended};

    ghost Value = { List Ended };

    ghost view = { λ p. items_of_last p.front ++ plain_items_from p.stride p.from p.output (code_points_behind p.front p.text) };

    ghost invariant = { λ p. (p.from +ℤ pos (run_width p.stride (code_points_behind p.front p.text))) <ℤ pos (2 ^ 15) };
}

impl PlainItems {
    /// The items of a text of `scalars` code points: those in front and the tail. Where all are one run it is made.
    pub(crate) fn of(text: Text, scalars: usize, front: Option<Run>, tail: PlainTail) -> PlainItems
        requires scalars { scalars ≡ length text }
        requires before { tail.before ≡ all_scalars (items_of_last front) }
        requires tail { IsTail tail text }
        ensures { result ≡ items_of_last front ++ tail_items (Some tail) text }
    {
        let stride = tail.length();
        match one_run(front, tail, scalars - tail.before) {
            Some(run) => PlainItems {
                text,
                front: Some(run),
                from: tail.end,
                stride,
                output: tail.output,
            },
            None => PlainItems {
                text,
                front,
                from: tail.from,
                stride,
                output: tail.output,
            },
        }
    }

    /// The last item.
    pub(crate) fn last(&self) -> Option<Ended>
        ensures { result ≡ slice_get self.now (length self.now - 1) }
    {
        let rest = behind(&self.text, self.front);
        if rest.is_empty() {
            return last_in(self.front);
        }
        let width = width_of_text(rest, self.stride);
        Some(item_at(self.from, self.output, width, 0))
    }

    /// Item number `k`, counted from 0.
    pub(crate) fn get(&self, k: u64) -> Option<Ended>
        ensures { result ≡ slice_get self.now k }
    {
        let from = self.from;
        let before = count_in(self.front);
        if k < before {
            return item_in(self.front, k);
        }
        let (front, back) = split_at_scalar(behind(&self.text, self.front), (k - before) as usize)?;
        let (width, _) = split_first(back, self.stride)?;
        let before = width_of_text(front, self.stride);
        Some(item_at(from, self.output, before, width))
    }

    /// Counts the items that are errors.
    pub(crate) fn count_errors(&self) -> u64
        ensures { result ≡ errors_in self.now }
    {
        match &self.front {
            Some(run) => run.errors(),
            None => 0,
        }
    }

    /// Counts the code points in items that end at or before a place.
    pub(crate) fn scalars_before(&self, limit: i64) -> u64
        requires { all_scalars self.now < 2 ^ 64 }
        ensures { result ≡ scalars_before limit self.now }
    {
        let before = before_in(self.front, limit);
        if limit < i64::from(self.from) {
            return before;
        }
        let width = limit.abs_diff(i64::from(self.from)) as usize;
        before + scalars_within(behind(&self.text, self.front), self.stride, width) as u64
    }

    /// The number of the item that has code point number `n`, if any has.
    pub(crate) fn item_of(&self, n: u64) -> Option<u64>
        requires { all_scalars self.now < 2 ^ 64 }
        ensures { result ≡ item_of self.now n }
    {
        let before = scalars_in(self.front);
        if n < before {
            return number_in(self.front, n);
        }
        let left = n - before;
        if left >= count_scalars(behind(&self.text, self.front)) as u64 {
            return None;
        }
        Some(count_in(self.front) + left)
    }

    /// The runs of the items: the leading run, and one for each item after it.
    pub(crate) fn runs(&self) -> PlainRuns<'_>
        ensures { items_of_runs result ≡ self.now }
    {
        let kind = ItemKind::one(self.output);
        let rest = behind(&self.text, self.front);
        PlainRuns::new(self.front, rest, self.from, self.stride, kind)
    }
}

/// The number of items of a run, or 0 without one.
fn count_in(front: Option<Run>) -> u64
    ensures { result ≡ length (items_of_last front) }
{
    match front {
        Some(run) => run.count(),
        None => 0,
    }
}

/// The number of code points of a run's items.
fn scalars_in(front: Option<Run>) -> u64
    ensures { result ≡ all_scalars (items_of_last front) }
{
    match front {
        Some(run) => run.scalars(),
        None => 0,
    }
}

/// Counts the leading run's code points in items that end at a place or before.
fn before_in(front: Option<Run>, limit: i64) -> u64
    ensures { result ≡ scalars_before limit (items_of_last front) }
{
    match front {
        Some(run) => run.scalars_before(limit),
        None => 0,
    }
}

/// Item number `k` of the leading run, counted from 0.
fn item_in(front: Option<Run>, k: u64) -> Option<Ended>
    ensures { result ≡ slice_get (items_of_last front) k }
{
    front?.item(k)
}

/// The last of them.
fn last_in(front: Option<Run>) -> Option<Ended>
    ensures { result ≡ slice_get (items_of_last front) (length (items_of_last front) - 1) }
{
    let run = front?;
    Some(run.kind.at(i64::from(run.last)))
}

/// The number of the one that has code point number `n`.
fn number_in(front: Option<Run>, n: u64) -> Option<u64>
    requires { n < all_scalars (items_of_last front) }
    ensures { result ≡ item_of (items_of_last front) n }
{
    front?.item_of(n)
}

/// The text of the items after those of a leading run, if there is one.
fn behind(text: &Text, front: Option<Run>) -> &str
    ensures { chars result.now ≡ code_points_behind front text.now }
{
    match split_at_scalar(text.as_str(), scalars_in(front) as usize) {
        Some((_, rest)) => rest,
        None => "",
    }
}

/// The item of a code point that takes `width` bytes, after a place. It has `before` bytes between
/// the place and its start.
fn item_at(from: i16, output: OutputState, before: usize, width: u8) -> Ended
    requires { (from +ℤ pos (before + width)) <ℤ pos (2 ^ 15) }
    ensures { result ≡ item_behind from output (before + width) }
{
    let end = i64::from(from) + before as i64 + i64::from(width);
    ItemKind::one(output).at(end)
}

/// All items as one run, if the tail continues the leading run. The tail must have `count` items of one length.
fn one_run(front: Option<Run>, tail: PlainTail, count: usize) -> Option<Run>
    ensures { (cs : List ℕ) → count ≡ length cs → tail.end ≡ tail.from +ℤ pos (run_width (stride_of tail.stride) cs)
        → IfSome result (λ run. items_of_run run ≡ items_of_last front ++ plain_items_from (stride_of tail.stride) tail.from tail.output cs) }
{
    let run = even_run(count, tail.from, tail.end, tail.length(), tail.output)?;
    match front {
        Some(front) => front.with(run),
        None => Some(run),
    }
}
