//! The errors of a piece, one after the other.
ghost use Rattle.std.specs.Prelude.{◌≡◌, ◌+◌, ◌^◌, ◌<◌, ◌≤◌, ◌++◌, [], ◌∷◌, min, take, drop, length, slice_get, IfSome, MatchOption};
ghost use Rattle.std.specs.Prelude.{vec_len, vec_capacity};
ghost use Rattle.state_memo.specs.{Items.errors_in, Runs.items_of_run, Runs.items_of_runs};
ghost use Rattle.piece_rope.specs.{Errors.begin_behind, Errors.errors_at, Made.ends_at};

use enc_names::Place;
use state_memo::{Outcome, Run, Runs};
use std::marker::Model;

/// The errors of a piece, starting at one. Each is found from the one before. Contracts see their
/// places.
#[derive(Drop)]
pub(crate) struct ErrorCursor<'r> {
    /// The runs that it isn't past.
    runs: Runs<'r>,
    /// The byte at which the piece begins.
    base: u32,
    /// The offset at which the first of them begins.
    from: u64,
    /// The number of its errors that the cursor has passed.
    passed: u64,
}

impl<'r> Model for ErrorCursor<'r> {
    ghost use Rattle.std.specs.Prelude.{List, drop};
    ghost use Rattle.enc_names.specs.declared.place.Place.{Place};
    ghost use Rattle.state_memo.specs.Runs.{items_of_runs};
    ghost use Rattle.piece_rope.specs.Errors.{errors_at};

    ghost Value = { List Place };

    ghost view = { λ c. drop c.passed (errors_at c.base c.from (items_of_runs c.runs)) };
}

impl<'r> ErrorCursor<'r> {
    /// The errors of an outcome, starting at number `n`. Its piece begins at byte `base`, and its
    /// first item at `from`.
    pub(crate) fn at(outcome: &'r Outcome, base: u32, from: u64, n: u64) -> ErrorCursor<'r>
        ensures { result ≡ drop n (errors_at base from outcome.now.items) }
    {
        ErrorCursor {
            runs: outcome.items().runs(),
            base,
            from,
            passed: n,
        }
    }

    /// The place of the next error.
    // In the loops over errors.
    #[inline(always)]
    pub(crate) fn next(&mut self) -> Option<Place>
        ensures { MatchOption result (self.old ≡ []) (λ place. self.old ≡ place ∷ self.new) }
    {
        let base = self.base;
        let (from, passed) = go_on_to(&mut self.runs, base, self.from, self.passed);
        self.from = from;
        let Some(run) = self.runs.first() else {
            self.passed = passed;
            return None;
        };
        let (here, last) = (run, run);
        let place = error_in_run(here, base, from, passed);
        if passed + 1 < run.errors() {
            self.passed = passed + 1;
            return place;
        }
        // Most runs are one error, and the next one begins directly after it.
        self.runs.advance();
        self.from = end_of(base, last);
        self.passed = 0;
        place
    }

    /// Appends the places of at most `most` errors, and returns their number.
    // Inlined with all that it calls, so that the cursor is in registers.
    #[inline(always)]
    pub(crate) fn push_to(&mut self, places: &mut Vec<Place>, most: u64) -> u64
        requires { vec_len places.old + most ≤ vec_capacity places.old }
        ensures count { result ≡ min most (length self.old) }
        ensures places { places.new.items ≡ places.old.items ++ take result self.old }
        ensures len { vec_len places.new ≡ vec_len places.old + result }
        ensures capacity { vec_capacity places.new ≡ vec_capacity places.old }
    {
        let mut count = 0;
        'errors: while count < most {
            let Some(place) = self.next() else {
                break;
            };
            places.push_reserved(place);
            count += 1;
        }
        count
    }
}

/// Skips the runs before the one with error number `n`. The first run begins at `from`, and `n`
/// counts all errors. Returns the remaining runs, where they begin, and the error's number in the
/// first of them.
// In the loops over errors.
#[inline(always)]
pub(crate) fn go_along<'r>(runs: &'r [Run], base: u32, from: u64, n: u64) -> (&'r [Run], u64, u64)
    ensures same { drop result.2 (errors_at base result.1 (items_of_runs result.0.now)) ≡ drop n (errors_at base from (items_of_runs runs.now)) }
    ensures there { IfSome (slice_get result.0.now 0) (λ run. result.2 < errors_in (items_of_run run)) }
{
    let (mut rest, mut begin) = past_others(runs, base, from);
    let mut left = n;
    'runs: while let Some((run, later)) = rest.split_first() {
        let count = run.errors();
        if left < count {
            break;
        }
        left -= count;
        let behind = end_of(base, *run);
        (rest, begin) = past_others(later, base, behind);
    }
    (rest, begin, left)
}

/// Skips the runs before the first run of errors. The first run begins at `from`. Returns the start
/// of the run of errors too.
// In the loops over errors. Most runs are passed here, so of each its kind alone is read.
#[inline(always)]
pub(crate) fn past_others<'r>(runs: &'r [Run], base: u32, from: u64) -> (&'r [Run], u64)
    ensures same { errors_at base result.1 (items_of_runs result.0.now) ≡ errors_at base from (items_of_runs runs.now) }
    ensures stop { IfSome (slice_get result.0.now 0) (λ run. 0 < errors_in (items_of_run run)) }
    ensures fewer { length result.0.now ≤ length runs.now }
{
    let (mut rest, mut last) = (runs, None);
    'runs: while let Some((run, later)) = rest.split_first() {
        if run.errors() > 0 {
            break;
        }
        last = Some(run);
        rest = later;
    }
    (rest, begin_behind(base, from, last.copied()))
}

/// The end of a run's last item. The run is in a piece that begins at byte `base`.
// In the loops over errors. A sum of so short numbers needn't be saturated, which takes longer.
#[inline(always)]
pub(crate) fn end_of(base: u32, run: Run) -> u64
    ensures { result ≡ ends_at base run.last }
{
    let end = i64::from(base) + i64::from(run.last);
    if end < 0 { 0 } else { end as u64 }
}

/// The offset after a run, in a piece that begins at byte `base`. Without a run it is `from`.
// In the loops over errors.
#[inline(always)]
fn begin_behind(base: u32, from: u64, run: Option<Run>) -> u64
    ensures { result ≡ begin_behind base from run }
{
    match run {
        Some(run) => end_of(base, run),
        None => from,
    }
}

/// Like `go_along`, over any runs, of which the remaining ones are left.
// In the loops over errors.
#[inline(always)]
fn go_on_to(runs: &mut Runs<'_>, base: u32, from: u64, n: u64) -> (u64, u64)
    ensures same { drop result.1 (errors_at base result.0 (items_of_runs runs.new)) ≡ drop n (errors_at base from (items_of_runs runs.old)) }
    ensures there { IfSome (slice_get runs.new 0) (λ run. result.1 < errors_in (items_of_run run)) }
    ensures few { IfSome (slice_get runs.new 0) (λ _. result.1 + 1 < 2 ^ 64) }
{
    let mut begin = past_other_runs(runs, base, from);
    let mut left = n;
    'runs: while let Some(run) = runs.first() {
        let count = run.errors();
        if left < count {
            break;
        }
        left -= count;
        let behind = end_of(base, run);
        runs.advance();
        begin = past_other_runs(runs, base, behind);
    }
    (begin, left)
}

/// Skips runs of any kind before the first run of errors. Returns where that run begins.
// In the loops over errors. Most runs are passed here, so where they end is reckoned once.
#[inline(always)]
fn past_other_runs(runs: &mut Runs<'_>, base: u32, from: u64) -> u64
    ensures same { errors_at base result (items_of_runs runs.new) ≡ errors_at base from (items_of_runs runs.old) }
    ensures fewer { length runs.new ≤ length runs.old }
{
    let mut last = None;
    'runs: while let Some(run) = runs.first() {
        if run.errors() > 0 {
            break;
        }
        last = Some(run);
        runs.advance();
    }
    begin_behind(base, from, last)
}

/// The place of the item that is error number `n` of a run. The run begins at `from`, in a piece
/// that begins at byte `base`.
// In the loops over errors.
#[inline(always)]
pub(crate) fn error_in_run(run: Run, base: u32, from: u64, n: u64) -> Option<Place>
    requires { n < errors_in (items_of_run run) }
    ensures { result ≡ slice_get (errors_at base from (items_of_run run)) n }
{
    let (first, second) = (run, run);
    let Some(item) = first.item(n) else {
        return None;
    };
    let to = u64::from(base).saturating_add_signed(item.end);
    if n == 0 {
        return Some(Place { from, to });
    }
    let Some(before) = second.item(n - 1) else {
        return None;
    };
    let begun = u64::from(base).saturating_add_signed(before.end);
    Some(Place { from: begun, to })
}
