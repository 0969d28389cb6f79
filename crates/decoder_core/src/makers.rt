//! The maker of meters.
ghost use Rattle.std.specs.Prelude.{◌≡◌};

use crate::counts::Meter;

/// A meter that has counted no byte. No other call makes one.
pub fn meter() -> Meter
    ensures { result ≡ 0 }
{
    Meter::zero()
}
