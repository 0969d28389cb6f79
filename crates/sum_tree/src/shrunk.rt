//! Nodes one of whose children lost an element.
ghost use Rattle.std.specs.Prelude.{◌≡◌, ◌+◌, ◌<◌, ◌++◌, vec_len, vec_capacity};
ghost use Rattle.sum_tree.specs.{Sums.IsSummable, Row.IsSound, Grown.grown, Grown.IsGrown, Shrunk.shrunk, Shrunk.IsShrunk};

use crate::grown::{Grown, halves};
use crate::node::{Child, Node, Opened};
use crate::pool::Pool;
use crate::summary::{Summary, Summed};

/// The rest of a node.
#[derive(Drop)]
pub(crate) enum Shrunk<T: Summed<S> + Drop, S: Summary> {
    /// Nothing: it was a leaf.
    Gone,
    /// A node of the same height.
    Kept(Child<T, S>),
    /// The node's only child, which is one level lower. The node's box is in the pool.
    Short(Child<T, S>),
}

/// Joins what is left of a child and the next child. If the first is too low, it is moved into the
/// next.
pub(crate) fn taken_right<T: Summed<S> + Drop, S: Summary>(
    front: Shrunk<T, S>,
    b: Child<T, S>,
    pool: &mut Pool<T, S>,
) -> Grown<T, S>
    requires shape { IsShrunk b.height (vec_len pool.old) front }
    requires sound { IsSound b }
    requires summable { IsSummable S.fits S.empty S.op T.sum_of
        ((shrunk front).items ++ b.items) }
    ensures items { (grown result).items ≡ (shrunk front).items ++ b.items }
    ensures shape { IsGrown b.height result }
    ensures boxes { vec_len pool.new + (grown result).nodes
        ≡ vec_len pool.old + ((shrunk front).nodes + b.nodes) }
    ensures capacity { vec_capacity pool.new ≡ vec_capacity pool.old }
{
    match front {
        Shrunk::Gone => Grown::One(b),
        Shrunk::Kept(a) => Grown::Both(a, b),
        Shrunk::Short(a) => match b.open() {
            Opened::Leaf(_, _) => unreachable!(),
            Opened::Two(node, x, y) => Grown::One(Child::close(node, Node::Three(a, x, y))),
            Opened::Three(node, x, y, z) => halves(node, (a, x), (y, z), pool),
        },
    }
}

/// Joins a child and what is left of the next child. If the second is too low, it is moved into the
/// first.
pub(crate) fn taken_left<T: Summed<S> + Drop, S: Summary>(
    a: Child<T, S>,
    back: Shrunk<T, S>,
    pool: &mut Pool<T, S>,
) -> Grown<T, S>
    requires shape { IsShrunk a.height (vec_len pool.old) back }
    requires sound { IsSound a }
    requires summable { IsSummable S.fits S.empty S.op T.sum_of
        (a.items ++ (shrunk back).items) }
    ensures items { (grown result).items ≡ a.items ++ (shrunk back).items }
    ensures shape { IsGrown a.height result }
    ensures boxes { vec_len pool.new + (grown result).nodes
        ≡ vec_len pool.old + (a.nodes + (shrunk back).nodes) }
    ensures capacity { vec_capacity pool.new ≡ vec_capacity pool.old }
{
    match back {
        Shrunk::Gone => Grown::One(a),
        Shrunk::Kept(b) => Grown::Both(a, b),
        Shrunk::Short(b) => match a.open() {
            Opened::Leaf(_, _) => unreachable!(),
            Opened::Two(node, x, y) => Grown::One(Child::close(node, Node::Three(x, y, b))),
            Opened::Three(node, x, y, z) => halves(node, (x, y), (z, b), pool),
        },
    }
}

/// Makes the rest of a node that has these children alone.
pub(crate) fn settled<T: Summed<S> + Drop, S: Summary>(
    node: Box<Node<T, S>>,
    children: Grown<T, S>,
    pool: &mut Pool<T, S>,
) -> Shrunk<T, S>
    requires shape { IsGrown (grown children).height children }
    requires summable { IsSummable S.fits S.empty S.op T.sum_of (grown children).items }
    requires space { vec_len pool.old < vec_capacity pool.old }
    ensures items { (shrunk result).items ≡ (grown children).items }
    ensures shape { IsShrunk ((grown children).height + 1) (vec_len pool.new) result }
    ensures boxes { vec_len pool.new + (shrunk result).nodes
        ≡ vec_len pool.old + ((grown children).nodes + 1) }
    ensures capacity { vec_capacity pool.new ≡ vec_capacity pool.old }
{
    match children {
        Grown::One(only) => {
            pool.push_reserved(node);
            Shrunk::Short(only)
        }
        Grown::Both(a, b) => Shrunk::Kept(Child::close(node, Node::Two(a, b))),
    }
}
