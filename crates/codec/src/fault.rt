//! The reasons why bytes aren't decoded.
ghost use Rattle.std.specs.Prelude.{◌≡◌};
ghost use Rattle.codec.specs.declared.fault.CodecFault.TheVariants.{OutOfMemory};

use enc_names::Place;
use std::alloc::AllocError;

/// The reason why bytes aren't decoded.
#[derive(Clone, Copy, PartialEq, Eq, Debug)]
pub enum CodecFault {
    /// An index file of the declared encoding isn't loaded.
    NoIndex,
    /// Error mode "fatal" stops at this error, the first; its place is among all the bytes.
    Malformed(Place),
    /// An allocation failed.
    OutOfMemory,
}

impl From<AllocError> for CodecFault {
    ghost from_gives = { λ _ fault. fault ≡ OutOfMemory };

    fn from(_: AllocError) -> CodecFault {
        CodecFault::OutOfMemory
    }
}
