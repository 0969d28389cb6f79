//! Inserting an element below a node.
ghost use Rattle.std.specs.Prelude.{◌≡◌, ◌+◌, ◌*◌, ◌≤◌, [], ◌∷◌, length, vec_len, vec_capacity};
ghost use Rattle.std.specs.List.{insert};
ghost use Rattle.sum_tree.specs.{Sums.IsSummable, Grown.grown, Grown.IsGrown};

use crate::grown::{Grown, beside_left, beside_right, grown_back, grown_front, grown_middle};
use crate::node::{Child, Node, Opened};
use crate::pool::Pool;
use crate::summary::{Summary, Summed};

/// Two leaves in these boxes.
fn leaves<T: Summed<S> + Drop, S: Summary>(
    node: Box<Node<T, S>>,
    first: T,
    other: Box<Node<T, S>>,
    second: T,
) -> Grown<T, S>
    requires { IsSummable S.fits S.empty S.op T.sum_of (first ∷ second ∷ []) }
    ensures items { (grown result).items ≡ first ∷ second ∷ [] }
    ensures shape { IsGrown 0 result }
    ensures nodes { (grown result).nodes ≡ 2 }
{
    Grown::Both(
        Child::close(node, Node::Leaf(first)),
        Child::close(other, Node::Leaf(second)),
    )
}

impl<T: Summed<S> + Drop, S: Summary> Child<T, S> {
    /// Inserts an element before number `i`, which gives one node or two.
    pub(crate) fn insert(self, i: usize, item: T, pool: &mut Pool<T, S>) -> Grown<T, S>
        requires place { i ≤ length self.items }
        requires room { 2 * length self.items ≤ vec_len pool.old + self.nodes }
        requires summable { IsSummable S.fits S.empty S.op T.sum_of (insert self.items i item) }
        ensures items { (grown result).items ≡ insert self.items i item }
        ensures shape { IsGrown self.height result }
        ensures boxes { vec_len pool.new + (grown result).nodes ≡ vec_len pool.old + self.nodes }
        ensures capacity { vec_capacity pool.new ≡ vec_capacity pool.old }
    {
        match self.open() {
            Opened::Leaf(node, x) => {
                let other = pool.take_last();
                if i == 0 {
                    leaves(node, item, other, x)
                } else {
                    leaves(node, x, other, item)
                }
            }
            Opened::Two(node, a, b) => {
                if i < a.count() {
                    let front = a.insert(i, item, pool);
                    Grown::One(beside_right(node, front, b))
                } else {
                    let j = i - a.count();
                    let back = b.insert(j, item, pool);
                    Grown::One(beside_left(node, a, back))
                }
            }
            Opened::Three(node, a, b, c) => {
                if i < a.count() {
                    let front = a.insert(i, item, pool);
                    return grown_front(node, front, b, c, pool);
                }
                let j = i - a.count();
                if j < b.count() {
                    let middle = b.insert(j, item, pool);
                    grown_middle(node, a, middle, c, pool)
                } else {
                    let k = j - b.count();
                    let back = c.insert(k, item, pool);
                    grown_back(node, a, b, back, pool)
                }
            }
        }
    }
}
