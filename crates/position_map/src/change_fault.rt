//! The reasons why a change isn't planned.
use crate::fault::PosFault;
use encoders::{EncodeFault, Unencodable};

/// The reason why a change isn't planned. If several apply, it is the first of them.
#[derive(Clone, Copy, PartialEq, Eq, Debug)]
pub enum ChangeFault {
    /// The range starts after its end.
    OutOfRange,
    /// An end of the range is inside a code point.
    SplitsCharacter,
    /// An end of the range is inside an item of two code points.
    SplitsItem,
    /// The effective encoding has no encoder: it is replacement.
    NoEncoder,
    /// A code point of the new text has no bytes in the effective encoding.
    Unencodable(Unencodable),
    /// An allocation failed. This can replace any answer.
    OutOfMemory,
}

impl From<PosFault> for ChangeFault {
    ghost use Rattle.std.specs.Prelude.{◌≡◌};
    ghost use Rattle.position_map.specs.Plan.{position_cause};

    ghost from_gives = { λ value fault. fault ≡ position_cause value };

    fn from(fault: PosFault) -> ChangeFault {
        match fault {
            PosFault::OutOfRange => ChangeFault::OutOfRange,
            PosFault::SplitsCharacter => ChangeFault::SplitsCharacter,
        }
    }
}

impl From<EncodeFault> for ChangeFault {
    ghost use Rattle.std.specs.Prelude.{◌≡◌};
    ghost use Rattle.position_map.specs.Plan.{encoder_cause};

    ghost from_gives = { λ value fault. fault ≡ encoder_cause value };

    fn from(fault: EncodeFault) -> ChangeFault {
        match fault {
            EncodeFault::Unencodable(unencodable) => ChangeFault::Unencodable(unencodable),
            EncodeFault::OutOfMemory => ChangeFault::OutOfMemory,
            EncodeFault::NoIndex | EncodeFault::NoEncoder => ChangeFault::NoEncoder,
        }
    }
}
