//! The oracle's speed.

use oracle::megabytes_per_second;
use std::time::Duration;

#[test]
fn a_megabyte_in_ten_milliseconds_is_a_hundred_megabytes_per_second(rt: HostRuntime) {
    assert!(rt; megabytes_per_second(1_000_000, Duration::from_millis(10)) == 100);
}
