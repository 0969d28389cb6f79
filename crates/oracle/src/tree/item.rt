//! Items of a weight.
ghost use Rattle.std.specs.Prelude.{◌^◌, ◌<◌};

/// An item of a weight below 2^16.
#[derive(Clone, Copy, Debug, PartialEq, Eq)]
pub struct WeightedItem {
    /// The weight.
    pub weight: u64,
    ghost light: { weight < 2 ^ 16 },
}

/// An item of this weight, modulo 65,536.
pub fn light(weight: usize) -> WeightedItem {
    WeightedItem {
        weight: (weight % 65536) as u64,
    }
}
