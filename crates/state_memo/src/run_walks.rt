//! Walks over runs.
ghost use Rattle.std.specs.Prelude.{◌≡◌, ◌-◌, ◌^◌, ◌<◌, length, slice_get};
ghost use Rattle.state_memo.specs.Items.{all_scalars, errors_in, item_of, scalars_before};
ghost use Rattle.state_memo.specs.Runs.{items_of_runs};

use crate::ended::Ended;
use crate::run::Run;

/// The last item of runs.
pub(crate) fn last_of(runs: &[Run]) -> Option<Ended>
    ensures { result ≡ slice_get (items_of_runs runs.now) (length (items_of_runs runs.now) - 1) }
{
    let run = runs.last()?;
    Some(run.kind.at(i64::from(run.last)))
}

/// Item number `k` of runs, counted from 0.
pub(crate) fn get_in(runs: &[Run], k: u64) -> Option<Ended>
    ensures { result ≡ slice_get (items_of_runs runs.now) k }
{
    let mut left = k;
    'runs: for run in runs {
        let count = run.count();
        if left < count {
            return run.item(left);
        }
        left -= count;
    }
    None
}

/// The number of errors among the items of runs.
pub(crate) fn errors_of(runs: &[Run]) -> u64
    requires { all_scalars (items_of_runs runs.now) < 2 ^ 64 }
    ensures { result ≡ errors_in (items_of_runs runs.now) }
{
    let mut count = 0;
    'runs: for run in runs {
        count += run.errors();
    }
    count
}

/// Counts the code points in items of runs that end at or before a place.
pub(crate) fn scalars_until(runs: &[Run], limit: i64) -> u64
    requires { all_scalars (items_of_runs runs.now) < 2 ^ 64 }
    ensures { result ≡ scalars_before limit (items_of_runs runs.now) }
{
    let mut count = 0;
    'runs: for run in runs {
        count += run.scalars_before(limit);
    }
    count
}

/// The number of the item of runs that has code point number `n`, if any.
pub(crate) fn number_in(runs: &[Run], n: u64) -> Option<u64>
    requires { all_scalars (items_of_runs runs.now) < 2 ^ 64 }
    ensures { result ≡ item_of (items_of_runs runs.now) n }
{
    let mut left = n;
    let mut before = 0;
    'runs: for run in runs {
        if let Some(k) = run.item_of(left) {
            return Some(before + k);
        }
        left -= run.scalars();
        before += run.count();
    }
    None
}
