//! The x-user-defined decoder.
ghost use Rattle.std.specs.Prelude.{◌≡◌};
ghost use Rattle.std.proofs.Common.{rules};
ghost use Rattle.decoder_core.specs.{declared.one_byte.OneByteState.TheVariants.Idle, Holding.falls_of, Holding.counts_of, OneByteLaws.x_user_defined_holding};
ghost use Rattle.decoder_core.specs.XUserDefined.{x_user_defined, x_user_defined_code_point};

use crate::ascii_runs::AsciiRuns;
use crate::characters::Characters;
use crate::forms::{finish, give_one, scalar};
use crate::handler::{Handled, Handler};
use crate::one_byte::OneByteState;
use index_loader::Utf8Form;

/// The x-user-defined decoder (Encoding Standard, "x-user-defined decoder").
#[derive(Clone, Copy, PartialEq, Eq, Debug)]
pub struct XUserDefinedDecoder;

impl Handler for XUserDefinedDecoder {
    type State = OneByteState;

    ghost table = { λ _. x_user_defined };

    ghost initial = { λ _. Idle };

    fn start_state(&self) -> OneByteState {
        OneByteState::Idle
    }

    #[inline(always)]
    fn ascii_runs(&self, state: OneByteState) -> AsciiRuns {
        let _ = state;
        AsciiRuns::All
    }

    #[inline(always)]
    fn characters(&self) -> Characters {
        Characters::Bytes
    }

    // In the loop over the bytes.
    #[inline(always)]
    fn known_byte(&self, state: OneByteState, byte: u8) -> Utf8Form {
        let _ = state;
        Utf8Form::new(scalar(code_point(byte)))
    }

    // In the loop over the bytes.
    #[inline(always)]
    fn turn(&self, state: OneByteState, byte: Option<u8>) -> Handled<OneByteState> {
        match byte {
            Some(byte) => give_one(state, code_point(byte)),
            None => finish(state),
        }
    }

    ghost ends = { λ _. falls_of _ x_user_defined_holding };

    ghost counts = { λ _. counts_of _ x_user_defined_holding };

    ghost exact = { λ a b h. Prim.search rules };
}

/// The number of a byte's code point.
fn code_point(byte: u8) -> u32
    ensures { result ≡ x_user_defined_code_point byte }
{
    if byte <= 0x7F {
        u32::from(byte)
    } else {
        0xF780 + u32::from(byte - 0x80)
    }
}
