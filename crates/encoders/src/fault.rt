//! The reasons why a text isn't encoded.
ghost use Rattle.std.specs.Prelude.{◌≡◌};
ghost use Rattle.encoders.specs.{declared.fault.EncodeFault.TheVariants.OutOfMemory, Encode.from_fault};

use decoder_core::{FromFault, Unencodable};
use std::alloc::AllocError;

/// The reason why a text isn't encoded. If several apply, it is the first of them.
#[derive(Clone, Copy, PartialEq, Eq, Debug)]
pub enum EncodeFault {
    /// An index file of the encoding isn't loaded.
    NoIndex,
    /// The encoding has no encoder: it is replacement.
    NoEncoder,
    /// A code point has no bytes, in mode `Fatal`.
    Unencodable(Unencodable),
    /// An allocation failed. This can replace any answer.
    OutOfMemory,
}

impl From<AllocError> for EncodeFault {
    ghost from_gives = { λ value fault. fault ≡ OutOfMemory };

    fn from(_: AllocError) -> EncodeFault {
        EncodeFault::OutOfMemory
    }
}

impl From<FromFault> for EncodeFault {
    ghost from_gives = { λ value fault. fault ≡ from_fault value };

    fn from(fault: FromFault) -> EncodeFault {
        match fault {
            FromFault::Unencodable(unencodable) => EncodeFault::Unencodable(unencodable),
            FromFault::OutOfMemory => EncodeFault::OutOfMemory,
        }
    }
}
