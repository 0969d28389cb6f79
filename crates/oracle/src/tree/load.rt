//! Items of a weight, and the sums of lists of them.
ghost use Rattle.std.specs.Prelude.{◌≡◌, ◌^◌, ◌<◌};
ghost use Rattle.oracle.specs.Loads.{load, no_load, joined, IsSmall, number};
ghost use Rattle.oracle.specs.LoadLaws.{load_laws, small_none, small_left, small_right, number_none, number_rises};

use crate::tree::item::WeightedItem;
use sum_tree::{Dimension, OutOfMemory, Summary, Summed, TryCopy};

/// The number of items, and their weight.
#[derive(Clone, Copy, Debug, PartialEq, Eq)]
pub struct Load {
    /// The number of items.
    pub count: u64,
    /// The sum of their weights.
    pub weight: u64,
}

impl Summary for Load {
    ghost empty = { no_load };

    ghost op = { joined };

    ghost fits = { IsSmall };

    fn unit() -> Load {
        Load {
            count: 0,
            weight: 0,
        }
    }

    fn join(self, other: Load) -> Load {
        Load {
            count: self.count + other.count,
            weight: self.weight + other.weight,
        }
    }

    ghost laws = { load_laws };

    ghost empty_fits = { small_none };

    ghost fits_left = { small_left };

    ghost fits_right = { small_right };
}

impl Summed<Load> for WeightedItem {
    ghost sum_of = { λ x. load 1 x.weight };

    fn sum(&self) -> Load {
        Load {
            count: 1,
            weight: self.weight,
        }
    }
}

impl TryCopy for WeightedItem {
    fn copy(&self) -> Result<WeightedItem, OutOfMemory> {
        Ok(*self)
    }
}

/// The quantity by which items are sought.
#[derive(Clone, Copy, Debug)]
pub enum LoadAxis {
    /// The number of items.
    Count,
    /// The weight of items.
    Weight,
}

impl Dimension<Load> for LoadAxis {
    ghost measure = { number };

    fn of(&self, sum: &Load) -> u64 {
        match self {
            LoadAxis::Count => sum.count,
            LoadAxis::Weight => sum.weight,
        }
    }

    fn of_join(&self, sum: &Load, other: &Load) -> u64 {
        self.of(sum) + self.of(other)
    }

    ghost zero = { number_none };

    ghost monotone = { number_rises };
}
