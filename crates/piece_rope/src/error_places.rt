//! The places of the errors of a piece, found in one walk over its runs.
ghost use Rattle.std.specs.Prelude.{◌≡◌, ◌+◌, ◌<◌, ◌≤◌, ◌++◌, min, take, drop, length, slice_get, IfSome, Some};
ghost use Rattle.std.specs.Prelude.{vec_len, vec_capacity};
ghost use Rattle.state_memo.specs.{Items.errors_in, Runs.items_of_run, Runs.items_of_runs};
ghost use Rattle.piece_rope.specs.{Errors.errors_at, Made.ends_at};

use crate::error_cursor::{ErrorCursor, end_of, error_in_run, go_along, past_others};
use enc_names::Place;
use state_memo::{Outcome, Run};

/// Appends the places of at most `most` errors of an outcome, starting at number `n`. Its piece
/// begins at byte `base`, and its first item at `from`. Returns the number of appended places.
pub(crate) fn push_errors(
    outcome: &Outcome,
    base: u32,
    from: u64,
    n: u64,
    places: &mut Vec<Place>,
    most: u64,
) -> u64
    requires { vec_len places.old + most ≤ vec_capacity places.old }
    ensures count { result ≡ min most (length (drop n (errors_at base from outcome.now.items))) }
    ensures places { places.new.items ≡ places.old.items ++ take result (drop n (errors_at base from outcome.now.items)) }
    ensures len { vec_len places.new ≡ vec_len places.old + result }
    ensures capacity { vec_capacity places.new ≡ vec_capacity places.old }
{
    let Some(listed) = outcome.items().as_listed() else {
        let mut cursor = ErrorCursor::at(outcome, base, from, n);
        return cursor.push_to(places, most);
    };
    let (rest, begin, left) = go_along(listed, base, from, n);
    push_along(rest, base, begin, left, places, most)
}

/// Appends the errors of runs, starting at number `n`. The first run begins at `from` and contains
/// that error.
// In the loop over pieces.
#[inline(always)]
fn push_along(runs: &[Run], base: u32, from: u64, n: u64, places: &mut Vec<Place>, most: u64) -> u64
    requires room { vec_len places.old + most ≤ vec_capacity places.old }
    requires there { IfSome (slice_get runs.now 0) (λ run. n < errors_in (items_of_run run)) }
    ensures count { result ≡ min most (length (drop n (errors_at base from (items_of_runs runs.now)))) }
    ensures places { places.new.items ≡ places.old.items ++ take result (drop n (errors_at base from (items_of_runs runs.now))) }
    ensures len { vec_len places.new ≡ vec_len places.old + result }
    ensures capacity { vec_capacity places.new ≡ vec_capacity places.old }
{
    let (mut rest, mut begin) = (runs, from);
    let mut skip = n;
    let mut count = 0;
    'runs: while count < most {
        let Some((run, later)) = rest.split_first() else {
            break;
        };
        let behind = end_of(base, *run);
        let taken = push_run(run, base, begin, behind, skip, places, most - count);
        count += taken;
        (rest, begin) = past_others(later, base, behind);
        skip = 0;
    }
    count
}

/// Appends the errors of a run. It begins at `from`, and the next run at `behind`.
// In the loop over runs.
#[inline(always)]
fn push_run(
    run: &Run,
    base: u32,
    from: u64,
    behind: u64,
    n: u64,
    places: &mut Vec<Place>,
    most: u64,
) -> u64
    requires there { n < errors_in (items_of_run run.now) }
    requires behind { behind ≡ ends_at base run.now.last }
    requires room { vec_len places.old + most ≤ vec_capacity places.old }
    ensures count { result ≡ min most (length (drop n (errors_at base from (items_of_run run.now)))) }
    ensures places { places.new.items ≡ places.old.items ++ take result (drop n (errors_at base from (items_of_run run.now))) }
    ensures len { vec_len places.new ≡ vec_len places.old + result }
    ensures capacity { vec_capacity places.new ≡ vec_capacity places.old }
{
    // Most runs are one error, which ends where its run does.
    if n == 0 && most > 0 && run.more == 0 {
        places.push_reserved(Place { from, to: behind });
        return 1;
    }
    let count = run.errors().saturating_sub(n).min(most);
    let mut done = 0;
    'items: while done < count {
        let Some(place) = error_in_run(*run, base, from, n + done) else {
            break;
        };
        places.push_reserved(place);
        done += 1;
    }
    done
}
