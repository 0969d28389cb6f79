//! Nodes that take in one child more.
ghost use Rattle.std.specs.Prelude.{◌≡◌, ◌+◌, ◌*◌, ◌<◌, ◌≤◌, ◌++◌, length, vec_len, vec_capacity};
ghost use Rattle.sum_tree.specs.Grown.{grown, IsGrown, IsPair};
ghost use Rattle.sum_tree.specs.{Sums.IsSummable, Row.IsSound};

use crate::node::{Child, Node};
use crate::pool::Pool;
use crate::summary::{Summary, Summed};

/// One node, or two of one height where one would have four children.
#[derive(Drop)]
pub(crate) enum Grown<T: Summed<S> + Drop, S: Summary> {
    One(Child<T, S>),
    Both(Child<T, S>, Child<T, S>),
}

/// Joins what grew before a child and the child into one node.
pub(crate) fn beside_right<T: Summed<S> + Drop, S: Summary>(
    node: Box<Node<T, S>>,
    front: Grown<T, S>,
    b: Child<T, S>,
) -> Child<T, S>
    requires shape { IsGrown b.height front }
    requires sound { IsSound b }
    requires summable { IsSummable S.fits S.empty S.op T.sum_of ((grown front).items ++ b.items) }
    ensures items { result.items ≡ (grown front).items ++ b.items }
    ensures height { result.height ≡ b.height + 1 }
    ensures nodes { result.nodes ≡ (grown front).nodes + b.nodes + 1 }
    ensures sound { IsSound result }
{
    match front {
        Grown::One(a) => Child::close(node, Node::Two(a, b)),
        Grown::Both(a, c) => Child::close(node, Node::Three(a, c, b)),
    }
}

/// Joins a child and what grew after it into one node.
pub(crate) fn beside_left<T: Summed<S> + Drop, S: Summary>(
    node: Box<Node<T, S>>,
    a: Child<T, S>,
    back: Grown<T, S>,
) -> Child<T, S>
    requires shape { IsGrown a.height back }
    requires sound { IsSound a }
    requires summable { IsSummable S.fits S.empty S.op T.sum_of (a.items ++ (grown back).items) }
    ensures items { result.items ≡ a.items ++ (grown back).items }
    ensures height { result.height ≡ a.height + 1 }
    ensures nodes { result.nodes ≡ a.nodes + (grown back).nodes + 1 }
    ensures sound { IsSound result }
{
    match back {
        Grown::One(b) => Child::close(node, Node::Two(a, b)),
        Grown::Both(b, c) => Child::close(node, Node::Three(a, b, c)),
    }
}

/// Two nodes of four children, the second one in a box of the pool.
pub(crate) fn halves<T: Summed<S> + Drop, S: Summary>(
    node: Box<Node<T, S>>,
    front: (Child<T, S>, Child<T, S>),
    back: (Child<T, S>, Child<T, S>),
    pool: &mut Pool<T, S>,
) -> Grown<T, S>
    requires front { IsPair front.0.height front.0 front.1 }
    requires back { IsPair front.0.height back.0 back.1 }
    requires summable { IsSummable S.fits S.empty S.op T.sum_of
        ((front.0.items ++ front.1.items) ++ (back.0.items ++ back.1.items)) }
    requires room { 0 < vec_len pool.old }
    ensures items { (grown result).items
        ≡ (front.0.items ++ front.1.items) ++ (back.0.items ++ back.1.items) }
    ensures shape { IsGrown (front.0.height + 1) result }
    ensures boxes { vec_len pool.new + (grown result).nodes
        ≡ vec_len pool.old
        + (front.0.nodes + front.1.nodes + back.0.nodes + back.1.nodes + 1) }
    ensures capacity { vec_capacity pool.new ≡ vec_capacity pool.old }
{
    let second = pool.take_last();
    let (a, b) = front;
    let (c, d) = back;
    Grown::Both(
        Child::close(node, Node::Two(a, b)),
        Child::close(second, Node::Two(c, d)),
    )
}

/// Joins what grew before two children and the two children into one node or two.
pub(crate) fn grown_front<T: Summed<S> + Drop, S: Summary>(
    node: Box<Node<T, S>>,
    front: Grown<T, S>,
    b: Child<T, S>,
    c: Child<T, S>,
    pool: &mut Pool<T, S>,
) -> Grown<T, S>
    requires shape { IsGrown b.height front }
    requires pair { IsPair b.height b c }
    requires summable { IsSummable S.fits S.empty S.op T.sum_of
        ((grown front).items ++ (b.items ++ c.items)) }
    requires room { 2 * length (grown front).items
        ≤ vec_len pool.old + (grown front).nodes + 1 }
    ensures items { (grown result).items
        ≡ (grown front).items ++ (b.items ++ c.items) }
    ensures shape { IsGrown (b.height + 1) result }
    ensures boxes { vec_len pool.new + (grown result).nodes
        ≡ vec_len pool.old + ((grown front).nodes + b.nodes + c.nodes + 1) }
    ensures capacity { vec_capacity pool.new ≡ vec_capacity pool.old }
{
    match front {
        Grown::One(a) => Grown::One(Child::close(node, Node::Three(a, b, c))),
        Grown::Both(a, d) => halves(node, (a, d), (b, c), pool),
    }
}

/// The node or the nodes of two children and what grew between them.
pub(crate) fn grown_middle<T: Summed<S> + Drop, S: Summary>(
    node: Box<Node<T, S>>,
    a: Child<T, S>,
    middle: Grown<T, S>,
    c: Child<T, S>,
    pool: &mut Pool<T, S>,
) -> Grown<T, S>
    requires shape { IsGrown a.height middle }
    requires pair { IsPair a.height a c }
    requires summable { IsSummable S.fits S.empty S.op T.sum_of
        (a.items ++ ((grown middle).items ++ c.items)) }
    requires room { 2 * length (grown middle).items
        ≤ vec_len pool.old + (grown middle).nodes + 1 }
    ensures items { (grown result).items
        ≡ a.items ++ ((grown middle).items ++ c.items) }
    ensures shape { IsGrown (a.height + 1) result }
    ensures boxes { vec_len pool.new + (grown result).nodes
        ≡ vec_len pool.old + (a.nodes + (grown middle).nodes + c.nodes + 1) }
    ensures capacity { vec_capacity pool.new ≡ vec_capacity pool.old }
{
    match middle {
        Grown::One(b) => Grown::One(Child::close(node, Node::Three(a, b, c))),
        Grown::Both(b, d) => halves(node, (a, b), (d, c), pool),
    }
}

/// Joins two children and what grew after them into one node or two.
pub(crate) fn grown_back<T: Summed<S> + Drop, S: Summary>(
    node: Box<Node<T, S>>,
    a: Child<T, S>,
    b: Child<T, S>,
    back: Grown<T, S>,
    pool: &mut Pool<T, S>,
) -> Grown<T, S>
    requires shape { IsGrown a.height back }
    requires pair { IsPair a.height a b }
    requires summable { IsSummable S.fits S.empty S.op T.sum_of
        (a.items ++ (b.items ++ (grown back).items)) }
    requires room { 2 * length (grown back).items
        ≤ vec_len pool.old + (grown back).nodes + 1 }
    ensures items { (grown result).items
        ≡ a.items ++ (b.items ++ (grown back).items) }
    ensures shape { IsGrown (a.height + 1) result }
    ensures boxes { vec_len pool.new + (grown result).nodes
        ≡ vec_len pool.old + (a.nodes + b.nodes + (grown back).nodes + 1) }
    ensures capacity { vec_capacity pool.new ≡ vec_capacity pool.old }
{
    match back {
        Grown::One(c) => Grown::One(Child::close(node, Node::Three(a, b, c))),
        Grown::Both(c, d) => halves(node, (a, b), (c, d), pool),
    }
}
