//! The edits and searches at the root of the tree.
ghost use Rattle.std.specs.Prelude.{◌≡◌, ◌+◌, ◌-◌, ◌*◌, ◌^◌, ◌<◌, ◌≤◌, length, take, slice_get, slice_set, option_copied, vec_len, vec_capacity};
ghost use Rattle.std.specs.List.{insert, remove};
ghost use Rattle.sum_tree.specs.Listed.{items_in, nodes_in, IsSoundRoot};
ghost use Rattle.sum_tree.specs.{Sums.total, Sums.IsSummable, Visited.RisesBy, Reached.IsSearched, Row.IsSound, Refilled.CanRefill, Refilled.IsRefilled};

use crate::counter::Visits;
use crate::grown::Grown;
use crate::node::{Child, Node};
use crate::pool::Pool;
use crate::shrunk::Shrunk;
use crate::summary::{Dimension, Summary, Summed};

/// Inserts an element before number `i`.
pub(crate) fn inserted<T: Summed<S> + Drop, S: Summary>(
    root: Option<Child<T, S>>,
    i: usize,
    item: T,
    pool: &mut Pool<T, S>,
) -> Child<T, S>
    requires sound { IsSoundRoot root }
    requires place { i ≤ length (items_in root) }
    requires room { 2 * length (items_in root) + 1 ≤ vec_len pool.old + nodes_in root }
    requires summable { IsSummable S.fits S.empty S.op T.sum_of (insert (items_in root) i item) }
    ensures items { result.items ≡ insert (items_in root) i item }
    ensures sound { IsSound result }
    ensures boxes { vec_len pool.new + result.nodes ≡ vec_len pool.old + nodes_in root }
    ensures capacity { vec_capacity pool.new ≡ vec_capacity pool.old }
{
    let Some(root) = root else {
        let node = pool.take_last();
        return Child::close(node, Node::Leaf(item));
    };
    match root.insert(i, item, pool) {
        Grown::One(root) => root,
        Grown::Both(a, b) => {
            let node = pool.take_last();
            Child::close(node, Node::Two(a, b))
        }
    }
}

/// Element number `i`, and the root without it, if there is another one.
pub(crate) fn removed<T: Summed<S> + Drop, S: Summary>(
    root: Option<Child<T, S>>,
    i: usize,
    pool: &mut Pool<T, S>,
) -> (T, Option<Child<T, S>>)
    requires place { i < length (items_in root) }
    requires space { vec_len pool.old + nodes_in root ≤ vec_capacity pool.old }
    requires summable { IsSummable S.fits S.empty S.op T.sum_of (remove (items_in root) i) }
    ensures element { slice_get (items_in root) i ≡ Some result.0 }
    ensures items { items_in result.1 ≡ remove (items_in root) i }
    ensures sound { IsSoundRoot result.1 }
    ensures boxes { vec_len pool.new + nodes_in result.1 ≡ vec_len pool.old + nodes_in root }
    ensures capacity { vec_capacity pool.new ≡ vec_capacity pool.old }
{
    let Some(root) = root else { unreachable!() };
    let (item, rest) = root.remove(i, pool);
    match rest {
        Shrunk::Gone => (item, None),
        Shrunk::Kept(root) => (item, Some(root)),
        Shrunk::Short(root) => (item, Some(root)),
    }
}

/// Element number `i`, and the root with this one in its place.
pub(crate) fn replaced<T: Summed<S> + Drop, S: Summary>(
    root: Option<Child<T, S>>,
    i: usize,
    item: T,
) -> (T, Child<T, S>)
    requires place { i < length (items_in root) }
    requires summable { IsSummable S.fits S.empty S.op T.sum_of
        (slice_set (items_in root) i item) }
    ensures element { slice_get (items_in root) i ≡ Some result.0 }
    ensures items { result.1.items ≡ slice_set (items_in root) i item }
    ensures sound { IsSound result.1 }
    ensures nodes { result.1.nodes ≡ nodes_in root }
{
    let Some(root) = root else { unreachable!() };
    root.replace(i, item)
}

/// Replaces the elements from number `from` to number `to`. The new ones are the last of `items`,
/// which it takes.
pub(crate) fn refilled<T: Summed<S> + Drop, S: Summary>(
    root: Option<Child<T, S>>,
    from: usize,
    to: usize,
    items: &mut Vec<T>,
) -> Option<Child<T, S>>
    requires order { from ≤ to }
    requires within { to ≤ length (items_in root) }
    requires enough { to ≤ length items.old.items + from }
    requires can { CanRefill S.fits S.empty S.op T.sum_of (items_in root) from to items.old.items }
    requires sound { IsSoundRoot root }
    ensures refilled { IsRefilled (items_in root) from to items.old.items items.new.items (items_in result) }
    ensures nodes { nodes_in result ≡ nodes_in root }
    ensures sound { IsSoundRoot result }
{
    match root {
        Some(root) => Some(root.refill(from, to, items)),
        None => None,
    }
}

/// The sum of the first `i` elements.
pub(crate) fn summed<T: Summed<S> + Drop, S: Summary>(
    root: &Child<T, S>,
    i: usize,
    visits: &mut Visits,
) -> S
    requires place { i ≤ length root.now.items }
    requires summable { IsSummable S.fits S.empty S.op T.sum_of root.now.items }
    ensures sum { result ≡ total S.empty S.op T.sum_of (take i root.now.items) }
    ensures most { visits.new ≤ visits.old + (root.now.height + 1) }
    ensures least { visits.old < 2 ^ 64 - 1 → visits.old < visits.new }
    ensures kept { visits.old ≤ visits.new }
{
    visits.count();
    if i < root.count() {
        root.prefix(S::unit(), i, visits)
    } else {
        root.total()
    }
}

/// Finds the first element at whose end the dimension is above the target. Returns its number and
/// the sum before it. If there is none, these are the number of the elements and the sum of all.
pub(crate) fn searched<'a, T: Summed<S> + Drop, S: Summary, D: Dimension<S>>(
    root: &'a Child<T, S>,
    dimension: &D,
    target: u64,
    visits: &mut Visits,
) -> (usize, S, Option<&'a T>)
    requires { IsSummable S.fits S.empty S.op T.sum_of root.now.items }
    ensures found { IsSearched (D.measure dimension.now) target S.empty S.op T.sum_of
        root.now.items result.0 result.1 (option_copied result.2) }
    ensures most { visits.new ≤ visits.old + (root.now.height + 1) }
    ensures least { visits.old < 2 ^ 64 - 1 → visits.old < visits.new }
    ensures kept { visits.old ≤ visits.new }
{
    visits.count();
    let all = root.total();
    if target < dimension.of(&all) {
        let (k, sum, x) = root.find(S::unit(), dimension, target, visits);
        (k, sum, Some(x))
    } else {
        (root.count(), all, None)
    }
}
