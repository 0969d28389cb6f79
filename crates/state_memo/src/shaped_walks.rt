//! Walks over runs by the numbers of their shapes.
ghost use Rattle.std.specs.Prelude.{◌≡◌, ◌-◌, ◌^◌, ◌<◌, length, slice_get};
ghost use Rattle.state_memo.specs.Items.{all_scalars, errors_in, item_of, scalars_before};
ghost use Rattle.state_memo.specs.Runs.{items_of_runs};

use crate::ended::Ended;
use crate::shaped::Shaped;

/// The last item of the runs.
pub(crate) fn last_shaped(shaped: &Shaped) -> Option<Ended>
    ensures { result ≡ slice_get (items_of_runs shaped.now) (length (items_of_runs shaped.now) - 1) }
{
    let run = shaped.last()?;
    Some(run.kind.at(i64::from(run.last)))
}

/// Item number `k` of the runs, counted from 0.
pub(crate) fn get_shaped(shaped: &Shaped, k: u64) -> Option<Ended>
    ensures { result ≡ slice_get (items_of_runs shaped.now) k }
{
    let mut runs = shaped.runs();
    let mut left = k;
    'runs: while let Some(run) = runs.first() {
        let count = run.count();
        if left < count {
            return run.item(left);
        }
        left -= count;
        runs.advance();
    }
    None
}

/// The number of errors among the items of the runs.
pub(crate) fn errors_shaped(shaped: &Shaped) -> u64
    requires { all_scalars (items_of_runs shaped.now) < 2 ^ 64 }
    ensures { result ≡ errors_in (items_of_runs shaped.now) }
{
    let mut runs = shaped.runs();
    let mut count = 0;
    'runs: while let Some(run) = runs.first() {
        count += run.errors();
        runs.advance();
    }
    count
}

/// Counts the runs' code points in items that end at or before a place.
pub(crate) fn scalars_shaped(shaped: &Shaped, limit: i64) -> u64
    requires { all_scalars (items_of_runs shaped.now) < 2 ^ 64 }
    ensures { result ≡ scalars_before limit (items_of_runs shaped.now) }
{
    let mut runs = shaped.runs();
    let mut count = 0;
    'runs: while let Some(run) = runs.first() {
        count += run.scalars_before(limit);
        runs.advance();
    }
    count
}

/// The number of the runs' item that has code point number `n`, if any.
pub(crate) fn number_shaped(shaped: &Shaped, n: u64) -> Option<u64>
    requires { all_scalars (items_of_runs shaped.now) < 2 ^ 64 }
    ensures { result ≡ item_of (items_of_runs shaped.now) n }
{
    let mut runs = shaped.runs();
    let mut left = n;
    let mut before = 0;
    'runs: while let Some(run) = runs.first() {
        if let Some(k) = run.item_of(left) {
            return Some(before + k);
        }
        left -= run.scalars();
        before += run.count();
        runs.advance();
    }
    None
}
