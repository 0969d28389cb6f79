//! The speed of some work.
ghost use Rattle.std.specs.Prelude.{◌≡◌, ◌*◌, ◌/◌, max};
ghost use Rattle.std.specs.Duration.{as_nanos};

use std::time::Duration;

/// The speed of `bytes` bytes in that time, in whole millions of bytes per second; a time of nothing
/// counts as a nanosecond.
pub fn megabytes_per_second(bytes: usize, time: Duration) -> u128
    ensures { result ≡ bytes * 1000 / max 1 (as_nanos time) }
{
    bytes as u128 * 1000 / time.as_nanos().max(1)
}
