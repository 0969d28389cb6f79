//! The maker of counts of visits.
ghost use Rattle.std.specs.Prelude.{◌≡◌};

use crate::counter::Visits;

/// A count of no visited node. No other call makes one.
pub fn visits() -> Visits
    ensures { result ≡ 0 }
{
    Visits::zero()
}
