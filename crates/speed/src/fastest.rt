//! The fastest of some rounds of work.

use std::io;
use std::time::{Duration, Instant};

/// The time of the fastest round so far.
#[derive(Clone, Copy)]
pub struct Fastest {
    /// The time; before the first round the longest that there is.
    pub time: Duration,
}

impl Fastest {
    /// No round yet.
    pub fn new() -> Fastest {
        Fastest {
            time: Duration::MAX,
        }
    }

    /// Takes a round that began at `start` and ends now. Its result, a number that depends on all its
    /// work, is looked at, so that no compiler leaves the work out.
    pub fn take(&mut self, rt: &HostRuntime, start: Instant, result_of: usize) -> io::Result<()> {
        let time = start.elapsed(rt)?;
        if result_of != usize::MAX && time < self.time {
            self.time = time;
        }
        Ok(())
    }
}
