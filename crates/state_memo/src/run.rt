//! Runs of items.
ghost use Rattle.std.specs.Prelude.{◌≡◌, ◌+◌, ◌-◌, ◌*◌, ◌^◌, ◌<◌, ◌≤◌, ◌++◌, [], ◌∷◌, slice_get, Some, IfSome, IfNone, IsTrue, pos, ◌+ℤ◌, ◌<ℤ◌, ◌-ℤ◌};
ghost use Rattle.state_memo.specs.Items.{scalars_before, item_of, all_scalars, errors_in};
ghost use Rattle.state_memo.specs.Runs.{items_of_run, item_of_kind, scalars_of};

use crate::ended::Ended;
use crate::kind::ItemKind;

/// One or more items of one kind with the same distance between their ends.
#[derive(Clone, Copy, PartialEq, Eq, Debug)]
pub struct Run {
    /// The end of the last one.
    pub last: i16,
    /// The number of items before the last one.
    pub more: u16,
    /// The number of bytes between two ends.
    pub step: u8,
    /// The kind of each.
    pub kind: ItemKind,
}

/// The end of an item of `width` bytes after one that ends at `last`.
// In the loop over the bytes.
#[inline(always)]
pub(crate) fn end_behind(last: i16, width: u8) -> i16
    requires { (last +ℤ pos width) <ℤ pos (2 ^ 15) }
    ensures { result ≡ last +ℤ pos width }
{
    last + i16::from(width)
}

/// The end of the last of `count` items of `width` bytes each. They follow an item that ends at
/// `last`.
// In the loop over the bytes.
#[inline(always)]
pub(crate) fn end_behind_all(last: i16, count: u16, width: u8) -> i16
    requires { (last +ℤ pos (count * width)) <ℤ pos (2 ^ 15) }
    ensures { result ≡ last +ℤ pos (count * width) }
{
    (i32::from(last) + i32::from(count) * i32::from(width)) as i16
}

/// Whether an item of `width` bytes continues a run. It always continues a run of a single item,
/// since the second says how far apart they end.
// In the loop over the bytes.
#[inline(always)]
pub(crate) fn goes_on(more: u16, step: u8, width: u8) -> bool
    ensures few { IsTrue result → more < 65535 }
    ensures same { IsTrue result → 0 < more → step ≡ width }
{
    more == 0 || (step == width && more < u16::MAX)
}

impl Run {
    /// One item.
    // In the loop over the bytes.
    #[inline(always)]
    pub(crate) fn one(kind: ItemKind, last: i16) -> Run
        ensures items { items_of_run result ≡ item_of_kind kind last ∷ [] }
        ensures last { result.last ≡ last }
        ensures kind { result.kind ≡ kind }
        ensures whole { result ≡ record { last = last; more = 0; step = 0; kind = kind } }
    {
        Run {
            last,
            more: 0,
            step: 0,
            kind,
        }
    }

    // The end of the item that `behind` more items follow.
    #[inline(always)]
    fn end_at(self, behind: u64) -> i64
        requires { behind ≤ self.more }
        ensures { result ≡ self.last -ℤ pos (behind * self.step) }
    {
        i64::from(self.last) - (behind * u64::from(self.step)) as i64
    }

    // The distance of an end from the last item's end, if the run continues so.
    #[inline(always)]
    fn step_to(self, end: i64) -> Option<u8>
        ensures gap { IfSome result (λ s. end ≡ self.last +ℤ pos s) }
        ensures same { IfSome result (λ s. 0 < self.more → s ≡ self.step) }
    {
        let step = u8::try_from(end.checked_sub(i64::from(self.last))?).ok()?;
        if self.more > 0 && step != self.step {
            return None;
        }
        Some(step)
    }

    // The distance from the last item's end to the first end of the next run, if both are one run.
    #[inline(always)]
    fn meets(self, next: Run) -> Option<u8>
        ensures gap { IfSome result (λ s. next.last -ℤ pos (next.more * next.step) ≡ self.last +ℤ pos s) }
        ensures front { IfSome result (λ s. 0 < self.more → s ≡ self.step) }
        ensures back { IfSome result (λ s. 0 < next.more → s ≡ next.step) }
    {
        let (first, more, kept) = (next, next.more, next.step);
        let step = self.step_to(first.end_at(u64::from(more)))?;
        if more > 0 && step != kept {
            return None;
        }
        Some(step)
    }

    // The run with the items of the next one, which is one run with it.
    #[inline(always)]
    fn longer(self, next: Run, more: u16, step: u8) -> Run
        requires kind { next.kind ≡ self.kind }
        requires more { more ≡ self.more + next.more + 1 }
        requires gap { next.last -ℤ pos (next.more * next.step) ≡ self.last +ℤ pos step }
        requires front { 0 < self.more → step ≡ self.step }
        requires back { 0 < next.more → step ≡ next.step }
        ensures items { items_of_run result ≡ items_of_run self ++ items_of_run next }
        ensures last { result.last ≡ next.last }
        ensures kind { result.kind ≡ self.kind }
    {
        Run {
            last: next.last,
            more,
            step,
            kind: self.kind,
        }
    }

    /// The run with the items of the next one, if they are one run.
    // In the loop over the bytes.
    #[inline(always)]
    pub(crate) fn with(self, next: Run) -> Option<Run>
        ensures items { IfSome result (λ r. items_of_run r ≡ items_of_run self ++ items_of_run next) }
        ensures last { IfSome result (λ r. r.last ≡ next.last) }
        ensures kind { IfSome result (λ r. r.kind ≡ next.kind) }
    {
        let (first, second) = (self, next);
        if next.kind != self.kind {
            return None;
        }
        let more = self.more.checked_add(next.more)?.checked_add(1)?;
        let step = self.meets(next)?;
        Some(first.longer(second, more, step))
    }

    /// The number of items.
    pub fn count(self) -> u64
        ensures { result ≡ self.more + 1 }
    {
        u64::from(self.more) + 1
    }

    /// The number of code points of the items.
    pub fn scalars(self) -> u64
        ensures { result ≡ all_scalars (items_of_run self) }
    {
        (u64::from(self.more) + 1) * u64::from(self.kind.scalars())
    }

    /// The number of errors among the items.
    pub fn errors(self) -> u64
        ensures { result ≡ errors_in (items_of_run self) }
    {
        if self.kind.is_error() {
            u64::from(self.more) + 1
        } else {
            0
        }
    }

    /// Item number `k`, counted from 0.
    pub fn item(self, k: u64) -> Option<Ended>
        ensures { result ≡ slice_get (items_of_run self) k }
    {
        let (run, kind, more) = (self, self.kind, self.more);
        if k > u64::from(more) {
            return None;
        }
        Some(kind.at(run.end_at(u64::from(more) - k)))
    }

    // Counts the items that end after a place; the result may be larger than their number.
    fn past(self, limit: i64) -> u64
        ensures { scalars_before limit (items_of_run self) ≡ (self.more + 1 - result) * scalars_of self.kind }
    {
        let last = i64::from(self.last);
        if last <= limit {
            return 0;
        }
        let gap = last.abs_diff(limit);
        let (more, step) = (u64::from(self.more), u64::from(self.step));
        // Mostly all do, and a division is slow.
        if more * step < gap {
            return more + 1;
        }
        (gap - 1) / step + 1
    }

    /// Counts the code points in items that end at or before a place.
    pub fn scalars_before(self, limit: i64) -> u64
        ensures { result ≡ scalars_before limit (items_of_run self) }
    {
        let (run, kind, more) = (self, self.kind, self.more);
        (u64::from(more) + 1).saturating_sub(run.past(limit)) * u64::from(kind.scalars())
    }

    /// The number of the item that has code point number `n` (`some`). There is none if the items
    /// have too few code points (`none`).
    pub fn item_of(self, n: u64) -> Option<u64>
        ensures some { IfSome result (λ k. item_of (items_of_run self) n ≡ Some k) }
        ensures none { IfNone result (all_scalars (items_of_run self) ≤ n) }
    {
        let (run, kind) = (self, self.kind);
        // Mostly there aren't, and a division is slow.
        if run.scalars() <= n {
            return None;
        }
        Some(n / u64::from(kind.scalars()))
    }
}
