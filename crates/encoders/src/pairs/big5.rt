//! The Big5 encoder.
ghost use Rattle.std.specs.Prelude.{◌≡◌, ◌≤◌, IfSome};
ghost use Rattle.decoder_core.specs.Steps.{bytes_of};
ghost use Rattle.index_loader.specs.Table.{pointer_limit};
ghost use Rattle.encoders.specs.Pairs.Big5.{big5_bytes, big5_pair, big5_pointer, takes_last};

use crate::over_index::IndexRules;
use decoder_core::Few;
use enc_names::Scalar;
use index_loader::{Index, law_pointer_exclusion};

/// The least pointer that is written: those below are the Hong Kong supplement's.
const LEAST_POINTER: u32 = 5024;

/// Whether the last pointer of a code point is taken.
fn takes_last(code_point: char) -> bool
    ensures { result ≡ takes_last code_point }
{
    matches!(
        u32::from(code_point),
        0x2550 | 0x255E | 0x2561 | 0x256A | 0x5341 | 0x5345
    )
}

/// The pointer of a code point that is written (Encoding Standard, "index Big5 pointer").
fn big5_pointer(index: &Index, code_point: char) -> Option<u32>
    ensures value { result ≡ big5_pointer index.now code_point }
    ensures bound { IfSome result (λ p. p ≤ pointer_limit index.now.kind) }
{
    if !takes_last(code_point) {
        return index.pointer_from(Scalar::from(code_point), LEAST_POINTER);
    }
    law_pointer_exclusion();
    let pointer = index.last_pointer(Scalar::from(code_point))?;
    if pointer < LEAST_POINTER {
        None
    } else {
        Some(pointer)
    }
}

/// The two bytes of a pointer.
fn big5_pair(pointer: u32) -> Few
    requires { pointer ≤ 19781 }
    ensures { bytes_of result ≡ big5_pair pointer }
{
    let lead = (pointer / 157) as u8 + 0x81;
    let trail = (pointer % 157) as u8;
    let offset = if trail < 0x3F { 0x40 } else { 0x62 };
    Few::Two(lead, trail + offset)
}

/// The rules of the encoder of Big5 (Encoding Standard).
pub(crate) enum Big5 {}

impl IndexRules for Big5 {
    ghost use Rattle.encoders.specs.StatelessLaws.{by_ascii_or};

    ghost limit = { 19781 };

    ghost written = { big5_bytes };

    #[inline(always)]
    fn bytes(index: &Index, code_point: char) -> Option<Few> {
        if code_point.is_ascii() {
            return Some(Few::One(code_point as u8));
        }
        Some(big5_pair(big5_pointer(index, code_point)?))
    }

    ghost ascii = { λ e c is. by_ascii_or _ c is };
}
