//! Removing an element below a node.
ghost use Rattle.std.specs.Prelude.{◌≡◌, ◌+◌, ◌<◌, ◌≤◌, length, slice_get, vec_len, vec_capacity};
ghost use Rattle.std.specs.List.{remove};
ghost use Rattle.sum_tree.specs.{Sums.IsSummable, Shrunk.shrunk, Shrunk.IsShrunk};

use crate::grown::{beside_left, beside_right};
use crate::node::{Child, Opened};
use crate::pool::Pool;
use crate::shrunk::{Shrunk, settled, taken_left, taken_right};
use crate::summary::{Summary, Summed};

impl<T: Summed<S> + Drop, S: Summary> Child<T, S> {
    /// Element number `i`, and what is left of the node without it.
    pub(crate) fn remove(self, i: usize, pool: &mut Pool<T, S>) -> (T, Shrunk<T, S>)
        requires place { i < length self.items }
        requires space { vec_len pool.old + self.nodes ≤ vec_capacity pool.old }
        requires summable { IsSummable S.fits S.empty S.op T.sum_of (remove self.items i) }
        ensures element { slice_get self.items i ≡ Some result.0 }
        ensures items { (shrunk result.1).items ≡ remove self.items i }
        ensures shape { IsShrunk self.height (vec_len pool.new) result.1 }
        ensures boxes { vec_len pool.new + (shrunk result.1).nodes
            ≡ vec_len pool.old + self.nodes }
        ensures capacity { vec_capacity pool.new ≡ vec_capacity pool.old }
    {
        match self.open() {
            Opened::Leaf(node, x) => {
                pool.push_reserved(node);
                (x, Shrunk::Gone)
            }
            Opened::Two(node, a, b) => {
                if i < a.count() {
                    let (x, front) = a.remove(i, pool);
                    let children = taken_right(front, b, pool);
                    (x, settled(node, children, pool))
                } else {
                    let j = i - a.count();
                    let (x, back) = b.remove(j, pool);
                    let children = taken_left(a, back, pool);
                    (x, settled(node, children, pool))
                }
            }
            Opened::Three(node, a, b, c) => {
                if i < a.count() {
                    let (x, front) = a.remove(i, pool);
                    let children = taken_right(front, b, pool);
                    return (x, Shrunk::Kept(beside_right(node, children, c)));
                }
                let j = i - a.count();
                if j < b.count() {
                    let (x, middle) = b.remove(j, pool);
                    let children = taken_left(a, middle, pool);
                    (x, Shrunk::Kept(beside_right(node, children, c)))
                } else {
                    let k = j - b.count();
                    let (x, back) = c.remove(k, pool);
                    let children = taken_left(b, back, pool);
                    (x, Shrunk::Kept(beside_left(node, a, children)))
                }
            }
        }
    }
}
