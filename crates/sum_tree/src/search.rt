//! Reaching an element below a node, by its number or by the sum before it.
ghost use Rattle.std.specs.Prelude.{◌≡◌, ◌<◌, length, slice_get};
ghost use Rattle.sum_tree.specs.Reached.{IsReachable, IsTargetAmong, IsElement, IsPrefix, IsBelow};
ghost use Rattle.sum_tree.specs.{Sums.total, Sums.IsSummable, Visited.RisesBy};

use crate::counter::Visits;
use crate::node::{Child, NodeParts};
use crate::summary::{Dimension, Summary, Summed};

impl<T: Summed<S> + Drop, S: Summary> Child<T, S> {
    /// Element number `i`.
    pub(crate) fn get(&self, i: usize) -> &T
        requires { i < length self.now.items }
        ensures { slice_get self.now.items i ≡ Some result.now }
    {
        match self.parts() {
            NodeParts::Leaf(x) => x,
            NodeParts::Two(a, b) => {
                if i < a.count() {
                    a.get(i)
                } else {
                    b.get(i - a.count())
                }
            }
            NodeParts::Three(a, b, c) => {
                if i < a.count() {
                    return a.get(i);
                }
                let j = i - a.count();
                if j < b.count() {
                    b.get(j)
                } else {
                    c.get(j - b.count())
                }
            }
        }
    }

    /// The join of the sum `before` and the sum of the node's elements.
    fn behind(&self, before: S) -> S
        requires { IsReachable S.fits S.empty S.op T.sum_of before self.now.items }
        ensures { result ≡ S.op before (total S.empty S.op T.sum_of self.now.items) }
    {
        before.join(self.total())
    }

    /// The dimension after the node's elements, if `before` is the sum before them.
    // On each level of a search.
    #[inline(always)]
    fn reach<D: Dimension<S>>(&self, before: &S, dimension: &D) -> u64
        requires { IsReachable S.fits S.empty S.op T.sum_of before.now self.now.items }
        ensures { result ≡ D.measure dimension.now (S.op before.now (total S.empty S.op T.sum_of self.now.items)) }
    {
        dimension.of_join(before, &self.total())
    }

    /// The sum before element number `i`, if `before` is the sum before the node.
    pub(crate) fn prefix(&self, before: S, i: usize, visits: &mut Visits) -> S
        requires place { i < length self.now.items }
        requires fit { IsReachable S.fits S.empty S.op T.sum_of before self.now.items }
        ensures prefix { IsPrefix S.empty S.op T.sum_of before self.now.items i result }
        ensures visited { RisesBy self.now.height visits.old visits.new }
    {
        match self.parts() {
            NodeParts::Leaf(_) => before,
            NodeParts::Two(a, b) => {
                visits.count();
                if i < a.count() {
                    a.prefix(before, i, visits)
                } else {
                    b.prefix(a.behind(before), i - a.count(), visits)
                }
            }
            NodeParts::Three(a, b, c) => {
                visits.count();
                if i < a.count() {
                    return a.prefix(before, i, visits);
                }
                let j = i - a.count();
                let behind = a.behind(before);
                if j < b.count() {
                    b.prefix(behind, j, visits)
                } else {
                    c.prefix(b.behind(behind), j - b.count(), visits)
                }
            }
        }
    }

    /// Finds the element that contains the target, its number and the sum before it. `before` is
    /// the sum before the node. It is a loop over one sum, since sums are long: a call on each
    /// level would copy them.
    pub(crate) fn find<D: Dimension<S>>(
        &self,
        before: S,
        dimension: &D,
        target: u64,
        visits: &mut Visits,
    ) -> (usize, S, &T)
        requires fit { IsReachable S.fits S.empty S.op T.sum_of before self.now.items }
        requires sought { IsTargetAmong (D.measure dimension.now) target S.empty S.op T.sum_of
            before self.now.items }
        ensures found { IsElement (D.measure dimension.now) target S.empty S.op T.sum_of
            before self.now.items result.0 result.1 result.2.now }
        ensures visited { RisesBy self.now.height visits.old visits.new }
    {
        let _count = self.count();
        let mut place = 0;
        let mut sum = before;
        let mut node = self;
        'levels: loop {
            match node.below(&mut sum, dimension, target, visits) {
                Below::Element(x) => return (place, sum, x),
                Below::Child(count, child) => {
                    place += count;
                    node = child;
                }
            }
        }
    }

    /// Finds the child that contains the target, or the element. `sum` is the sum before the node,
    /// and becomes the sum before the result. Inlined, so that the sum isn't moved.
    #[inline(always)]
    fn below<D: Dimension<S>>(
        &self,
        sum: &mut S,
        dimension: &D,
        target: u64,
        visits: &mut Visits,
    ) -> Below<'_, T, S>
        requires fit { IsReachable S.fits S.empty S.op T.sum_of sum.old self.now.items }
        requires sought { IsTargetAmong (D.measure dimension.now) target S.empty S.op T.sum_of
            sum.old self.now.items }
        ensures { IsBelow S.fits (D.measure dimension.now) target S.empty S.op T.sum_of
            sum.old self.now visits.old visits.new sum.new result }
    {
        match self.parts() {
            NodeParts::Leaf(x) => Below::Element(x),
            NodeParts::Two(a, b) => {
                visits.count();
                if target < a.reach(sum, dimension) {
                    return Below::Child(0, a);
                }
                *sum = a.behind(*sum);
                Below::Child(a.count(), b)
            }
            NodeParts::Three(a, b, c) => {
                visits.count();
                if target < a.reach(sum, dimension) {
                    return Below::Child(0, a);
                }
                *sum = a.behind(*sum);
                if target < b.reach(sum, dimension) {
                    return Below::Child(a.count(), b);
                }
                *sum = b.behind(*sum);
                Below::Child(a.count() + b.count(), c)
            }
        }
    }
}

/// The next step of a search below a node. It is the element, or a child with the number of the
/// node's elements before it.
#[derive(Drop)]
enum Below<'a, T: Summed<S> + Drop, S: Summary> {
    Element(&'a T),
    Child(usize, &'a Child<T, S>),
}
