//! The reasons why a line is refused before the desk sees it.

use crate::request::field::Field;
use std::alloc::AllocError;

/// A refusal of a line, in the order in which the causes are checked. `id` is the request's number,
/// if it was read.
#[derive(Clone, Copy, PartialEq, Eq, Debug)]
pub enum Refusal {
    /// The line has more bytes than the limit.
    LineTooLong,
    /// The line isn't a JSON text in UTF-8.
    BadJson,
    /// The first field that is missing or wrong.
    BadRequest { id: Option<u64>, field: Field },
    /// There is no such operation.
    UnknownOp { id: u64 },
    /// An allocation failed. This can replace any answer except `LineTooLong`.
    OutOfMemory,
}

impl From<AllocError> for Refusal {
    ghost use Rattle.std.specs.Prelude.{◌≡◌};
    ghost use Rattle.line_protocol.specs.declared.request.refusal.Refusal.TheVariants.{OutOfMemory};

    ghost from_gives = { λ _ refusal. refusal ≡ OutOfMemory };

    fn from(_: AllocError) -> Refusal {
        Refusal::OutOfMemory
    }
}
