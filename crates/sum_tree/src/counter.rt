//! Counting of visited nodes.
ghost use Rattle.std.specs.Prelude.{◌≡◌, ◌+◌, ◌-◌, ◌^◌, min};
ghost use Rattle.sum_tree.specs.Visited.{RisesBy};

use std::marker::Model;

/// A count of the nodes whose sums were read, which stops at 2^64 - 1. Contracts see the number.
#[derive(Drop, Debug)]
pub struct Visits {
    visited: u64,
}

impl Model for Visits {
    ghost use Rattle.std.specs.Prelude.{ℕ, ◌<◌, ◌^◌};

    ghost Value = { ℕ };

    ghost view = { λ s. s.visited };

    ghost invariant = { λ s. s.visited < 2 ^ 64 };

    ghost inverse = { λ n. record { visited = n } };
}

impl Visits {
    /// A count of no node.
    pub(crate) fn zero() -> Visits
        ensures { result ≡ 0 }
    {
        Visits { visited: 0 }
    }

    /// Counts one node more.
    pub(crate) fn count(&mut self)
        ensures counted { self.new ≡ min (self.old + 1) (2 ^ 64 - 1) }
        ensures rises { RisesBy 1 self.old self.new }
    {
        self.visited = self.visited.saturating_add(1);
    }

    /// The number of nodes that were visited under this count, at most 2^64 - 1.
    pub fn visited(&self) -> u64
        ensures { result ≡ self.now }
    {
        self.visited
    }
}
