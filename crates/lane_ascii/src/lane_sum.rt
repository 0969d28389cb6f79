//! Sums of lanes.
ghost use Rattle.std.specs.Prelude.{◌≡◌, ◌+◌, ◌<◌};
ghost use lib.Lanes.{sum_l};

use std::simd::prelude::*;

/// The sum of all lanes of two vectors, which a byte holds.
// In the loop over the bytes of a text.
#[inline(always)]
pub fn sum_of_lanes<const N: usize>(first: Simd<u8, N>, second: Simd<u8, N>) -> usize
    requires { sum_l first + sum_l second < 256 }
    ensures { result ≡ sum_l first.entry + sum_l second.entry }
{
    usize::from(first.strict_add(second).strict_reduce_sum())
}
