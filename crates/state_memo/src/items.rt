//! Items in order.
ghost use Rattle.std.specs.Prelude.{◌≡◌, ◌++◌, ◌+◌, ◌-◌, ◌^◌, ◌<◌, ◌≤◌, ℕ, [], true, length, slice_get, IfOk, IfSome};
ghost use Rattle.std.specs.Prelude.{OnOk, option_map, pos, ◌+ℤ◌, ◌<ℤ◌, vec_len, vec_capacity};
ghost use Rattle.std.specs.Str.{chars};
ghost use Rattle.decoder_core.specs.Bulk.{run_width};
ghost use Rattle.state_memo.specs.Items.{all_scalars, errors_in, scalars_before, item_of};
ghost use Rattle.state_memo.specs.Runs.{items_of_run, items_of_runs, items_under_way};
ghost use Rattle.state_memo.specs.Gathering.{plain_items_from};

use crate::alike::{alike_at, scalar_len};
use crate::ended::Ended;
use crate::kind::ItemKind;
use crate::plain::widths_of;
use crate::plain_items::PlainItems;
use crate::run::{Run, end_behind, end_behind_all, goes_on};
use crate::run_walks::{errors_of, get_in, last_of, number_in, scalars_until};
use crate::runs::Runs;
use crate::shaped::Shaped;
use crate::shaped_walks::{errors_shaped, get_shaped, last_shaped, number_shaped, scalars_shaped};
use decoder_core::Stride;
use iso2022jp::OutputState;
use std::alloc::{AllocError, Global};
use std::marker::Model;

/// The number of runs of the first allocation, for a text with several runs. It is so large that
/// runs are rarely moved.
const PIECE: usize = 1024;

/// The number of bytes that a run takes.
const RUN: u64 = 6;

/// The mean length in bytes below which runs are kept by their shapes. That is so in a piece of any length: such bytes
/// are mostly errors.
const SHORT: usize = 4;

/// The bytes of memory above which runs are kept by their shapes too. They are counted together with a text of their
/// piece's own.
///
/// A piece of 2,048 bytes then takes, with its bytes and headers, over three times its bytes. Text between escapes does
/// that, and words of pairs among which a few items differ. Finding shapes takes a seventh of the time of decoding, so
/// the limit doesn't depend on the piece's bytes. The pieces that an edit makes are mostly half as long, and no edit
/// waits for shapes. If there are errors, a text isn't counted.
const MOST: u64 = 3584;

/// Items under way: the last run may still continue.
#[derive(Drop)]
pub(crate) struct OpenRuns {
    closed: Vec<Run>,
    last: Option<Run>,
}

impl OpenRuns {
    /// No item.
    pub(crate) fn new(alloc: Global) -> OpenRuns
        ensures { items_under_way result.closed.items result.last ≡ [] }
    {
        OpenRuns {
            closed: Vec::new(alloc),
            last: None,
        }
    }

    /// Makes room for the items of `runs` runs.
    // In the loop over the bytes.
    #[inline(always)]
    pub(crate) fn reserve(&mut self, runs: usize) -> Result<(), AllocError>
        ensures closed { self.new.closed.items ≡ self.old.closed.items }
        ensures last { self.new.last ≡ self.old.last }
        ensures room { OnOk result (vec_len self.new.closed + runs ≤ vec_capacity self.new.closed) }
    {
        self.closed.reserve(runs)
    }

    /// Whether all are one run.
    // In the loop over the bytes.
    #[inline(always)]
    pub(crate) fn are_unbroken(&self) -> bool
        ensures { result ≡ true → self.now.closed.items ≡ [] }
    {
        self.closed.is_empty()
    }

    /// The last run, if there is any.
    pub(crate) fn last(&self) -> Option<Run>
        ensures { result ≡ self.now.last }
    {
        self.last
    }

    /// Makes room for the items of `runs` runs. The first time it makes room for those of a piece.
    pub(crate) fn reserve_for(&mut self, runs: usize) -> Result<(), AllocError>
        ensures closed { self.new.closed.items ≡ self.old.closed.items }
        ensures last { self.new.last ≡ self.old.last }
        ensures room { OnOk result (vec_len self.new.closed + runs ≤ vec_capacity self.new.closed) }
    {
        let least = if self.closed.is_empty() { PIECE } else { 0 };
        self.reserve(runs.max(least))
    }

    /// Appends a run, for which there is room. Returns the run that is now the last one.
    // In the loop over the bytes.
    #[inline(always)]
    fn place(&mut self, run: Run) -> Run
        requires { vec_len self.old.closed < vec_capacity self.old.closed }
        ensures items { items_of_runs self.new.closed.items ++ items_of_run result ≡ items_under_way self.old.closed.items self.old.last ++ items_of_run run }
        ensures last { result.last ≡ run.last }
        ensures kind { result.kind ≡ run.kind }
        ensures few { vec_len self.new.closed ≤ vec_len self.old.closed + 1 }
        ensures capacity { vec_capacity self.new.closed ≡ vec_capacity self.old.closed }
    {
        let Some(last) = self.last else {
            return run;
        };
        let (kept, next) = (last, run);
        if let Some(longer) = last.with(run) {
            return longer;
        }
        self.closed.push_reserved(kept);
        next
    }

    /// Appends a run, for which there is room.
    // In the loop over the bytes.
    #[inline(always)]
    pub(crate) fn put(&mut self, run: Run)
        requires { vec_len self.old.closed < vec_capacity self.old.closed }
        ensures { items_under_way self.new.closed.items self.new.last ≡ items_under_way self.old.closed.items self.old.last ++ items_of_run run }
    {
        let last = self.place(run);
        self.last = Some(last);
    }

    /// Appends the items of a text's code points, in one walk over it. There is room for them.
    pub(crate) fn put_plain(&mut self, text: &str, from: i16, stride: Stride, output: OutputState)
        requires room { vec_len self.old.closed + length (chars text.now) ≤ vec_capacity self.old.closed }
        requires fits { (from +ℤ pos (run_width stride (chars text.now))) <ℤ pos (2 ^ 15) }
        ensures { items_under_way self.new.closed.items self.new.last ≡ items_under_way self.old.closed.items self.old.last
            ++ plain_items_from stride from output (chars text.now) }
    {
        let bytes = text.as_bytes();
        if bytes.is_empty() {
            return;
        }
        let kind = ItemKind::one(output);
        let widths = widths_of(stride);
        let mut at = scalar_len(bytes[0]);
        let mut last = end_behind(from, widths[at - 1]);
        let first = self.place(Run::one(kind, last));
        // Variables of their own, so that each has a register.
        let mut more = first.more;
        let mut step = first.step;
        // The run continues with all alike code points, if it does with any of them.
        let next = alike_at(bytes, at);
        let width = widths[next.len - 1];
        if goes_on(more, step, width) {
            let run = next.count.min(u16::MAX - more);
            last = end_behind_all(last, run, width);
            at += usize::from(run) * next.len;
            more += run;
            step = width;
        }
        'items: while at < bytes.len() {
            self.closed.push_reserved(Run {
                last,
                more,
                step,
                kind,
            });
            // Another run begins with any code point, and continues with all that are alike.
            let len = scalar_len(bytes[at]);
            last = end_behind(last, widths[len - 1]);
            at += len;
            let behind = alike_at(bytes, at);
            step = widths[behind.len - 1];
            last = end_behind_all(last, behind.count, step);
            at += usize::from(behind.count) * behind.len;
            more = behind.count;
        }
        self.last = Some(Run {
            last,
            more,
            step,
            kind,
        });
    }

    /// The items of `bytes` bytes, in no more memory than they need. The text has `own` bytes for itself. The items are
    /// kept as runs; if these take much memory, by the numbers of their shapes.
    pub(crate) fn finish(self, bytes: usize, own: usize) -> Result<ItemRuns, AllocError>
        ensures { IfOk result (λ items. items ≡ items_under_way self.closed.items self.last) }
    {
        let OpenRuns {
            closed: mut runs,
            last,
        } = self;
        if let Some(run) = last {
            runs.push(run).map_err(AllocError::from)?;
        }
        let alloc = *runs.allocator();
        if take_much(runs.as_slice(), bytes, own)
            && let Some(shaped) = Shaped::of(alloc, runs.as_slice())
            && shaped.memory() < memory_of(runs.as_slice())
        {
            return ItemRuns::shaped(alloc, shaped);
        }
        Ok(ItemRuns::listed(fitted_runs(runs)?))
    }
}

/// Whether the runs of `bytes` bytes should be kept by their shapes. The text has `own` bytes for itself.
fn take_much(runs: &[Run], bytes: usize, own: usize) -> bool {
    runs.len() > bytes / SHORT || memory_of(runs).saturating_add(own as u64) > MOST
}

/// The bytes of memory that runs take.
fn memory_of(runs: &[Run]) -> u64 {
    (runs.len() as u64).saturating_mul(RUN)
}

/// The runs, in as much memory as they take. Runs with spare room are copied, like a text.
fn fitted_runs(runs: Vec<Run>) -> Result<Vec<Run>, AllocError>
    ensures { IfOk result (λ same. same.items ≡ runs.items) }
{
    if runs.capacity() == runs.len() {
        return Ok(runs);
    }
    Vec::from_slice(*runs.allocator(), runs.as_slice())
}

/// The form in which items are kept. If they are the code points of their piece's text, one each and without gaps,
/// nothing is kept except a leading run. Otherwise they are runs. Runs that are short or take much memory are kept by
/// the numbers of their shapes.
#[derive(Drop)]
enum Kept {
    InText(PlainItems),
    InRuns(Vec<Run>),
    InShapes(Box<Shaped>),
}

/// Items in order. Contracts see the list. Items of one kind that end at equal distances are one run,
/// and found in it by a division.
#[derive(Drop)]
pub struct ItemRuns {
    kept: Kept,
}

impl Model for ItemRuns {
    ghost use Rattle.std.specs.Prelude.{List};
    ghost use Rattle.state_memo.specs.{declared.ended.Ended.Ended, Kept.kept_items};

    ghost Value = { List Ended };

    ghost view = { λ t. kept_items t.kept };
}

impl ItemRuns {
    /// Items that are code points of a text.
    pub(crate) fn plain(items: PlainItems) -> ItemRuns
        ensures { result ≡ items }
    {
        ItemRuns {
            kept: Kept::InText(items),
        }
    }

    /// Items in runs.
    fn listed(runs: Vec<Run>) -> ItemRuns
        ensures { result ≡ items_of_runs runs.items }
    {
        ItemRuns {
            kept: Kept::InRuns(runs),
        }
    }

    /// Items in runs by the numbers of their shapes.
    fn shaped(alloc: Global, shaped: Shaped) -> Result<ItemRuns, AllocError>
        ensures { IfOk result (λ items. items ≡ items_of_runs shaped) }
    {
        let shaped = Box::new(alloc, shaped)?;
        Ok(ItemRuns {
            kept: Kept::InShapes(shaped),
        })
    }

    /// The runs.
    pub fn runs(&self) -> Runs<'_>
        ensures { items_of_runs result ≡ self.now }
    {
        match &self.kept {
            Kept::InText(plain) => Runs::plain(plain.runs()),
            Kept::InRuns(runs) => Runs::listed(runs.as_slice()),
            Kept::InShapes(shaped) => Runs::shaped(shaped.runs()),
        }
    }

    /// The runs as a slice, where they are kept in one: a walk over it is shorter.
    // In the loops over pieces.
    #[inline(always)]
    pub fn as_listed(&self) -> Option<&[Run]>
        ensures { IfSome result (λ runs. items_of_runs runs.now ≡ self.now) }
    {
        match &self.kept {
            Kept::InRuns(runs) => Some(runs.as_slice()),
            _ => None,
        }
    }

    /// The bytes of memory that they take.
    pub(crate) fn memory(&self) -> u64 {
        match &self.kept {
            Kept::InText(_) => 0,
            Kept::InRuns(runs) => memory_of(runs.as_slice()),
            Kept::InShapes(shaped) => shaped.memory(),
        }
    }

    /// The last item.
    pub fn last(&self) -> Option<Ended>
        ensures { result ≡ slice_get self.now (length self.now - 1) }
    {
        match &self.kept {
            Kept::InText(plain) => plain.last(),
            Kept::InRuns(runs) => last_of(runs.as_slice()),
            Kept::InShapes(shaped) => last_shaped(shaped),
        }
    }

    /// Item number `k`, counted from 0.
    pub fn get(&self, k: u64) -> Option<Ended>
        ensures { result ≡ slice_get self.now k }
    {
        match &self.kept {
            Kept::InText(plain) => plain.get(k),
            Kept::InRuns(runs) => get_in(runs.as_slice(), k),
            Kept::InShapes(shaped) => get_shaped(shaped, k),
        }
    }

    /// Counts the items that are errors.
    pub(crate) fn count_errors(&self) -> u64
        requires { all_scalars self.now < 2 ^ 64 }
        ensures { result ≡ errors_in self.now }
    {
        match &self.kept {
            Kept::InText(plain) => plain.count_errors(),
            Kept::InRuns(runs) => errors_of(runs.as_slice()),
            Kept::InShapes(shaped) => errors_shaped(shaped),
        }
    }

    /// Counts the code points in items that end at or before a place.
    pub(crate) fn scalars_before(&self, limit: i64) -> u64
        requires { all_scalars self.now < 2 ^ 64 }
        ensures { result ≡ scalars_before limit self.now }
    {
        match &self.kept {
            Kept::InText(plain) => plain.scalars_before(limit),
            Kept::InRuns(runs) => scalars_until(runs.as_slice(), limit),
            Kept::InShapes(shaped) => scalars_shaped(shaped, limit),
        }
    }

    /// The number of the item that has code point number `n`, if any has.
    pub(crate) fn item_of(&self, n: u64) -> Option<u64>
        requires { all_scalars self.now < 2 ^ 64 }
        ensures { result ≡ item_of self.now n }
    {
        match &self.kept {
            Kept::InText(plain) => plain.item_of(n),
            Kept::InRuns(runs) => number_in(runs.as_slice(), n),
            Kept::InShapes(shaped) => number_shaped(shaped, n),
        }
    }
}
