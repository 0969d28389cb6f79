//! Counting of decoded bytes.
ghost use Rattle.std.specs.Prelude.{◌≡◌, ◌+◌, ◌-◌, ◌^◌, ◌≤◌, min};

use std::marker::Model;

/// A count of the bytes that were decoded, which stops at 2^64 - 1. Contracts see the number.
#[derive(Drop, Debug)]
pub struct Meter {
    decoded: u64,
}

impl Model for Meter {
    ghost use Rattle.std.specs.Prelude.{ℕ, ◌<◌, ◌^◌};

    ghost Value = { ℕ };

    ghost view = { λ s. s.decoded };

    ghost invariant = { λ s. s.decoded < 2 ^ 64 };

    ghost inverse = { λ n. record { decoded = n } };
}

impl Meter {
    /// A count of no byte.
    pub(crate) fn zero() -> Meter
        ensures { result ≡ 0 }
    {
        Meter { decoded: 0 }
    }

    /// Adds `bytes`, up to 2^64 - 1.
    pub(crate) fn count(&mut self, bytes: usize)
        ensures counted { self.new ≡ min (self.old + bytes) (2 ^ 64 - 1) }
        ensures rises { self.old ≤ self.new }
    {
        self.decoded = self.decoded.saturating_add(bytes as u64);
    }

    /// The number of bytes that were decoded under this meter, at most 2^64 - 1.
    pub fn decoded(&self) -> u64
        ensures { result ≡ self.now }
    {
        self.decoded
    }
}
