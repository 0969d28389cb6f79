//! Finding elements by sums.
ghost use Rattle.std.specs.Prelude.{◌≡◌, ℕ, ◌+◌, ◌-◌, ◌^◌, ◌<◌, ◌≤◌, length, option_copied};
ghost use Rattle.sum_tree.specs.Reached.{IsFound};

use crate::counter::Visits;
use crate::summary::{Dimension, Summary, Summed};
use crate::tree::SumTree;
use std::marker::Model;

/// A list whose elements are found only by the sums before them. Contracts see the list.
#[derive(Drop)]
pub struct Finder<'a, T: Summed<S> + Drop, S: Summary> {
    tree: &'a SumTree<T, S>,
}

impl<'a, T: Summed<S> + Drop, S: Summary> Model for Finder<'a, T, S> {
    ghost use Rattle.std.specs.Prelude.{List};

    ghost Value = { List T };

    ghost view = { λ a. a.tree.now.items };
}

impl<'a, T: Summed<S> + Drop, S: Summary> Finder<'a, T, S> {
    /// The list of this tree.
    pub(crate) fn over(tree: &'a SumTree<T, S>) -> Finder<'a, T, S>
        ensures { result ≡ tree.now.items }
    {
        Finder { tree }
    }

    /// Finds the first element at whose end the dimension is above the target. Returns the sum of
    /// the elements before it, or of all elements if there is none (`place`). It visits at most one
    /// node on each level (`most`), and at least one node if the list isn't empty (`least`). The
    /// count of visits never falls (`kept`).
    pub fn find<D: Dimension<S>>(
        &self,
        dimension: &D,
        target: u64,
        visits: &mut Visits,
    ) -> (S, Option<&'a T>)
        ensures place { IsFound (D.measure dimension.now) target S.empty S.op T.sum_of
            self.now result.0 (option_copied result.1) }
        ensures most { (d : ℕ) → length self.now < 2 ^ d → visits.new ≤ visits.old + (d + 2) }
        ensures least { 0 < length self.now → visits.old < 2 ^ 64 - 1 → visits.old < visits.new }
        ensures kept { visits.old ≤ visits.new }
    {
        let tree = self.tree;
        let (_, sum, element) = tree.search(dimension, target, visits);
        (sum, element)
    }
}
