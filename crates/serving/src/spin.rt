//! The choice of the waits in which a server spins: it asks the system again and again, without
//! waiting, before it sleeps.
ghost use Rattle.std.specs.Prelude.{◌≡◌, ◌≤◌, ◌==◌, ◌-◌};
ghost use Rattle.serving.specs.declared.spin.TheConstants.{LONGEST_PAUSE};

/// The most times that a server asks the system in one spin. They take about 30 microseconds.
pub const SPINS: u32 = 200;

/// The most consecutive waits in which a server doesn't spin.
const LONGEST_PAUSE: u32 = 63;

/// The plan of spins. A server spins in each wait as long as a spin finds something new. After the
/// first spin that finds nothing it leaves out the next wait, after the second one the next 3, then
/// 7, up to 63. A spin that finds something starts again with none left out.
#[derive(Clone, Copy)]
pub struct Spin {
    /// The number of waits to leave out before the next spin.
    left: u32,
    /// The number of waits left out after the last spin.
    pause: u32,
    ghost few: { pause ≤ LONGEST_PAUSE },
}

impl Spin {
    ghost use Rattle.serving.specs.Spins.{pause_behind};

    /// Creates a plan that spins in the first wait.
    pub fn new() -> Spin
        ensures left { result.left ≡ 0 }
        ensures pause { result.pause ≡ 0 }
    {
        Spin { left: 0, pause: 0 }
    }

    /// Whether to spin in the wait that starts now. The wait is counted.
    pub fn is_due(&mut self) -> bool
        ensures due { result ≡ (self.old.left == 0) }
        ensures left { self.new.left ≡ self.old.left - 1 }
        ensures pause { self.new.pause ≡ self.old.pause }
    {
        let is_due = self.left == 0;
        self.left = self.left.saturating_sub(1);
        is_due
    }

    /// Notes that a spin has ended, and whether it found something new.
    pub fn note(&mut self, found: bool)
        ensures pause { self.new.pause ≡ pause_behind found self.old.pause }
        ensures left { self.new.left ≡ self.new.pause }
    {
        self.pause = if found {
            0
        } else {
            (2 * self.pause + 1).min(LONGEST_PAUSE)
        };
        self.left = self.pause;
    }
}
