//! The reasons why a text isn't encoded.
use std::alloc::AllocError;

/// The first code point of a text that has no bytes in an encoding.
#[derive(Clone, Copy, PartialEq, Eq, Debug)]
pub struct Unencodable {
    /// The place of the code point in the text, in code points from 0.
    pub index: u64,
    /// The code point that the encoder names.
    pub code_point: char,
}

/// The reason why a text isn't encoded from a state on.
#[derive(Clone, Copy, PartialEq, Eq, Debug)]
pub enum FromFault {
    /// A code point has no bytes, and none in place of them was asked for.
    Unencodable(Unencodable),
    /// An allocation failed.
    OutOfMemory,
}

impl From<AllocError> for FromFault {
    ghost use Rattle.std.specs.Prelude.{◌≡◌};
    ghost use Rattle.decoder_core.specs.declared.fault.FromFault.TheVariants.{OutOfMemory};

    ghost from_gives = { λ value fault. fault ≡ OutOfMemory };

    fn from(_: AllocError) -> FromFault {
        FromFault::OutOfMemory
    }
}

/// The reason why a code point isn't put into the output.
#[derive(Clone, Copy, PartialEq, Eq, Debug)]
pub(crate) enum PutFault {
    /// An error with this code point.
    Unencodable(char),
    /// An allocation failed.
    OutOfMemory,
}

impl PutFault {
    ghost use Rattle.std.specs.Prelude.{◌≡◌};
    ghost use Rattle.decoder_core.specs.EncoderOutput.{fault_at};

    /// The fault of the text, where the code point at `index` has this one.
    pub(crate) fn at(self, index: u64) -> FromFault
        ensures { result ≡ fault_at index self }
    {
        match self {
            PutFault::Unencodable(code_point) => {
                FromFault::Unencodable(Unencodable { index, code_point })
            }
            PutFault::OutOfMemory => FromFault::OutOfMemory,
        }
    }
}

impl From<AllocError> for PutFault {
    ghost use Rattle.std.specs.Prelude.{◌≡◌};
    ghost use Rattle.decoder_core.specs.declared.fault.PutFault.TheVariants.{OutOfMemory};

    ghost from_gives = { λ value fault. fault ≡ OutOfMemory };

    fn from(_: AllocError) -> PutFault {
        PutFault::OutOfMemory
    }
}
