//! Replacing a run of the elements below a node.
ghost use Rattle.std.specs.Prelude.{◌≡◌, ◌+◌, ◌≤◌, length};
ghost use Rattle.sum_tree.specs.{Row.IsSound, Refilled.CanRefill, Refilled.IsRefilled};

use crate::node::{Child, Node, Opened};
use crate::summary::{Summary, Summed};

impl<T: Summed<S> + Drop, S: Summary> Child<T, S> {
    /// Replaces the elements from number `from` to number `to`. The new ones are the last of
    /// `items`, which it takes. Nodes that have none of these elements are unchanged.
    pub(crate) fn refill(self, from: usize, to: usize, items: &mut Vec<T>) -> Child<T, S>
        requires order { from ≤ to }
        requires within { to ≤ length self.items }
        requires enough { to ≤ length items.old.items + from }
        requires can { CanRefill S.fits S.empty S.op T.sum_of self.items from to items.old.items }
        requires sound { IsSound self }
        ensures refilled { IsRefilled self.items from to items.old.items items.new.items result.items }
        ensures height { result.height ≡ self.height }
        ensures nodes { result.nodes ≡ self.nodes }
        ensures sound { IsSound result }
    {
        if from == to {
            return self;
        }
        match self.open() {
            Opened::Leaf(node, _) => Child::close(node, Node::Leaf(items.take_last())),
            Opened::Two(node, a, b) => {
                let x = a.count();
                let b = b.refill(from.saturating_sub(x), to.saturating_sub(x), items);
                let a = a.refill(from.min(x), to.min(x), items);
                Child::close(node, Node::Two(a, b))
            }
            Opened::Three(node, a, b, c) => {
                let (x, y) = (a.count(), b.count());
                let (i, j) = (from.saturating_sub(x), to.saturating_sub(x));
                let c = c.refill(i.saturating_sub(y), j.saturating_sub(y), items);
                let b = b.refill(i.min(y), j.min(y), items);
                let a = a.refill(from.min(x), to.min(x), items);
                Child::close(node, Node::Three(a, b, c))
            }
        }
    }
}
