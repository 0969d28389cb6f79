//! Replacing an element below a node.
ghost use Rattle.std.specs.Prelude.{◌≡◌, ◌<◌, length, slice_get, slice_set};
ghost use Rattle.sum_tree.specs.{Sums.IsSummable, Row.IsSound};

use crate::node::{Child, Node, Opened};
use crate::summary::{Summary, Summed};

impl<T: Summed<S> + Drop, S: Summary> Child<T, S> {
    /// Element number `i`, and the node with this one in its place.
    pub(crate) fn replace(self, i: usize, item: T) -> (T, Child<T, S>)
        requires place { i < length self.items }
        requires summable { IsSummable S.fits S.empty S.op T.sum_of (slice_set self.items i item) }
        ensures element { slice_get self.items i ≡ Some result.0 }
        ensures items { result.1.items ≡ slice_set self.items i item }
        ensures height { result.1.height ≡ self.height }
        ensures nodes { result.1.nodes ≡ self.nodes }
        ensures sound { IsSound result.1 }
    {
        match self.open() {
            Opened::Leaf(node, x) => (x, Child::close(node, Node::Leaf(item))),
            Opened::Two(node, a, b) => {
                if i < a.count() {
                    let (x, a) = a.replace(i, item);
                    (x, Child::close(node, Node::Two(a, b)))
                } else {
                    let j = i - a.count();
                    let (x, b) = b.replace(j, item);
                    (x, Child::close(node, Node::Two(a, b)))
                }
            }
            Opened::Three(node, a, b, c) => {
                if i < a.count() {
                    let (x, a) = a.replace(i, item);
                    return (x, Child::close(node, Node::Three(a, b, c)));
                }
                let j = i - a.count();
                if j < b.count() {
                    let (x, b) = b.replace(j, item);
                    (x, Child::close(node, Node::Three(a, b, c)))
                } else {
                    let k = j - b.count();
                    let (x, c) = c.replace(k, item);
                    (x, Child::close(node, Node::Three(a, b, c)))
                }
            }
        }
    }
}
