//! Building a tree of many elements.
ghost use Rattle.std.specs.Prelude.{◌≡◌, ◌+◌, ◌-◌, ◌*◌, ◌^◌, ◌<◌, ◌≤◌, [], ◌++◌, length, vec_len, vec_capacity};
ghost use Rattle.sum_tree.specs.Listed.{items_in, nodes_in, IsSoundRoot};
ghost use Rattle.sum_tree.specs.{Sums.IsSummable, Row.IsSound};

use crate::node::{Child, Node};
use crate::pool::Pool;
use crate::summary::{Summary, Summed};

/// The least number of elements that a child of such a node can have.
fn halved(height: usize, width: usize) -> usize
    requires height { 0 < height }
    requires width { width ≡ 2 ^ height }
    ensures power { result ≡ 2 ^ (height - 1) }
    ensures half { 2 * result ≡ width }
{
    width / 2
}

/// Makes a node of this height with the last `count` elements of `items`. `width` is the least
/// number of elements that the height can have.
fn gathered<T: Summed<S> + Drop, S: Summary>(
    height: usize,
    width: usize,
    count: usize,
    items: &mut Vec<T>,
    pool: &mut Pool<T, S>,
) -> Child<T, S>
    requires width { width ≡ 2 ^ height }
    requires low { width ≤ count }
    requires high { count < 2 * width }
    requires enough { count ≤ length items.old.items }
    requires summable { IsSummable S.fits S.empty S.op T.sum_of items.old.items }
    requires room { 2 * count ≤ vec_len pool.old + 1 }
    ensures items { items.old.items ≡ items.new.items ++ result.items }
    ensures count { length result.items ≡ count }
    ensures height { result.height ≡ height }
    ensures sound { IsSound result }
    ensures boxes { vec_len pool.new + result.nodes ≡ vec_len pool.old }
    ensures capacity { vec_capacity pool.new ≡ vec_capacity pool.old }
{
    let node = pool.take_last();
    if height == 0 {
        return Child::close(node, Node::Leaf(items.take_last()));
    }
    let below = height - 1;
    let half = halved(height, width);
    if count - width < half {
        let second = count / 2;
        let b = gathered(below, half, second, items, pool);
        let a = gathered(below, half, count - second, items, pool);
        Child::close(node, Node::Two(a, b))
    } else {
        let third = count / 3;
        let second = (count - third) / 2;
        let c = gathered(below, half, third, items, pool);
        let b = gathered(below, half, second, items, pool);
        let a = gathered(below, half, count - third - second, items, pool);
        Child::close(node, Node::Three(a, b, c))
    }
}

/// The greatest height whose least number of elements is at most `count`, and that number.
fn height_of(count: usize) -> (usize, usize)
    requires { 0 < count }
    ensures width { result.1 ≡ 2 ^ result.0 }
    ensures low { result.1 ≤ count }
    ensures high { count < 2 * result.1 }
{
    let mut height = 0;
    let mut width = 1;
    while width <= count / 2 {
        width *= 2;
        height += 1;
    }
    (height, width)
}

/// The root of a tree of all elements, which it takes.
pub(crate) fn built<T: Summed<S> + Drop, S: Summary>(
    items: &mut Vec<T>,
    pool: &mut Pool<T, S>,
) -> Option<Child<T, S>>
    requires summable { IsSummable S.fits S.empty S.op T.sum_of items.old.items }
    requires room { 2 * length items.old.items ≤ vec_len pool.old + 1 }
    ensures items { items_in result ≡ items.old.items }
    ensures emptied { items.new.items ≡ [] }
    ensures sound { IsSoundRoot result }
    ensures boxes { vec_len pool.new + nodes_in result ≡ vec_len pool.old }
    ensures capacity { vec_capacity pool.new ≡ vec_capacity pool.old }
{
    let count = items.len();
    if count == 0 {
        return None;
    }
    let (height, width) = height_of(count);
    Some(gathered(height, width, count, items, pool))
}
