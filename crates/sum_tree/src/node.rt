//! A node of the tree, and what its parent keeps of it.
ghost use Rattle.std.specs.Prelude.{◌≡◌, length};
ghost use Rattle.sum_tree.specs.{Sums.total, Sums.IsSummable, Row.IsSound, Level.row_of, Level.IsLevel, Opened.IsOpened, Opened.HasParts};

use crate::summary::{Summary, Summed};
use std::marker::Model;
use std::mem;

/// A parent's part of a child: the number of elements below it, their sum, and its node. A tree has less than 2^32
/// elements (`SumTree::reserve`), so their number takes 32 bits: there are two nodes for an element, and each has room
/// for three children.
#[cycle(tree)]
#[derive(Drop)]
pub(crate) struct Child<T: Summed<S> + Drop, S: Summary> {
    count: u32,
    sum: S,
    node: Box<Node<T, S>>,
}

/// The content of a node's box.
#[cycle(tree)]
#[derive(Drop)]
pub(crate) enum Node<T: Summed<S> + Drop, S: Summary> {
    /// Nothing: the box is a spare one.
    Vacant,
    /// An element.
    Leaf(T),
    /// Two children of one height.
    Two(Child<T, S>, Child<T, S>),
    /// Three children of one height.
    Three(Child<T, S>, Child<T, S>, Child<T, S>),
}

impl<T: Summed<S> + Drop, S: Summary> Model for Child<T, S> {
    ghost use Rattle.sum_tree.specs.Row.{Row};

    ghost Value = { Row T };

    ghost use Rattle.sum_tree.specs.Level.{row_of, IsSummedUp};

    ghost view = { λ a. row_of a.node.value };

    ghost invariant = { λ a. IsSummedUp S.fits S.empty S.op T.sum_of a.count a.sum a.node.value };

    ghost size = { λ r. r.height };

    ghost use Rattle.sum_tree.specs.Falls.{falls};

    ghost size_decreases = { λ a h. falls T.Summed S.Summary a.node.value };
}

/// A node taken apart: its box, now vacant, and what was in it.
#[derive(Drop)]
pub(crate) enum Opened<T: Summed<S> + Drop, S: Summary> {
    Leaf(Box<Node<T, S>>, T),
    Two(Box<Node<T, S>>, Child<T, S>, Child<T, S>),
    Three(Box<Node<T, S>>, Child<T, S>, Child<T, S>, Child<T, S>),
}

/// The contents of a node.
#[derive(Drop)]
pub(crate) enum NodeParts<'a, T: Summed<S> + Drop, S: Summary> {
    Leaf(&'a T),
    Two(&'a Child<T, S>, &'a Child<T, S>),
    Three(&'a Child<T, S>, &'a Child<T, S>, &'a Child<T, S>),
}

/// The box with this content in place of its own.
fn filled<T: Summed<S> + Drop, S: Summary>(
    mut node: Box<Node<T, S>>,
    content: Node<T, S>,
) -> Box<Node<T, S>>
    ensures { result.value ≡ content }
{
    *node = content;
    node
}

impl<T: Summed<S> + Drop, S: Summary> Node<T, S> {
    /// The number of elements below the node.
    fn count(&self) -> u32
        requires { IsSummable S.fits S.empty S.op T.sum_of (row_of self.now).items }
        ensures { result ≡ length (row_of self.now).items }
    {
        match self {
            Node::Vacant => 0,
            Node::Leaf(_) => 1,
            Node::Two(a, b) => a.count + b.count,
            Node::Three(a, b, c) => a.count + b.count + c.count,
        }
    }

    /// The sum of the elements below the node.
    fn total(&self) -> S
        requires { IsSummable S.fits S.empty S.op T.sum_of (row_of self.now).items }
        ensures { result ≡ total S.empty S.op T.sum_of (row_of self.now).items }
    {
        match self {
            Node::Vacant => S::unit(),
            Node::Leaf(x) => x.sum(),
            Node::Two(a, b) => a.total().join(b.total()),
            Node::Three(a, b, c) => a.total().join(b.total().join(c.total())),
        }
    }
}

impl<T: Summed<S> + Drop, S: Summary> Child<T, S> {
    /// The number of elements below the node.
    pub(crate) fn count(&self) -> usize
        ensures { result ≡ length self.now.items }
    {
        self.count as usize
    }

    /// The sum of the elements below the node.
    pub(crate) fn total(&self) -> S
        ensures { result ≡ total S.empty S.op T.sum_of self.now.items }
    {
        self.sum
    }

    /// The contents of the node.
    pub(crate) fn parts(&self) -> NodeParts<'_, T, S>
        ensures parts { HasParts self.now result }
        ensures summable { IsSummable S.fits S.empty S.op T.sum_of self.now.items }
        ensures sound { IsSound self.now }
    {
        match &*self.node {
            Node::Vacant => unreachable!(),
            Node::Leaf(x) => NodeParts::Leaf(x),
            Node::Two(a, b) => NodeParts::Two(a, b),
            Node::Three(a, b, c) => NodeParts::Three(a, b, c),
        }
    }

    /// The node taken apart.
    pub(crate) fn open(self) -> Opened<T, S>
        ensures opened { IsOpened self result }
        ensures summable { IsSummable S.fits S.empty S.op T.sum_of self.items }
        ensures sound { IsSound self }
    {
        let Child {
            count: _,
            sum: _,
            mut node,
        } = self;
        match mem::replace(&mut *node, Node::Vacant) {
            Node::Vacant => unreachable!(),
            Node::Leaf(x) => Opened::Leaf(node, x),
            Node::Two(a, b) => Opened::Two(node, a, b),
            Node::Three(a, b, c) => Opened::Three(node, a, b, c),
        }
    }

    /// A node in this box with this content, in place of the box's own.
    pub(crate) fn close(node: Box<Node<T, S>>, content: Node<T, S>) -> Child<T, S>
        requires level { IsLevel content }
        requires summable { IsSummable S.fits S.empty S.op T.sum_of (row_of content).items }
        ensures row { result ≡ row_of content }
        ensures sound { IsSound result }
    {
        let count = content.count();
        let sum = content.total();
        let node = filled(node, content);
        Child { count, sum, node }
    }
}
