//! The Shift_JIS encoder.
ghost use Rattle.std.specs.Prelude.{◌≡◌, ◌≤◌, IfSome};
ghost use Rattle.decoder_core.specs.Steps.{bytes_of};
ghost use Rattle.index_loader.specs.Table.{pointer_limit};
ghost use Rattle.encoders.specs.Pairs.ShiftJis.{minus_folded, shift_jis_bytes, shift_jis_pair, shift_jis_pointer};

use crate::over_index::IndexRules;
use decoder_core::Few;
use enc_names::Scalar;
use index_loader::{Index, law_pointer_exclusion};

/// The smallest pointer of a code point outside the duplicates 8272 to 8835. (Encoding Standard,
/// "index Shift_JIS pointer".)
fn shift_jis_pointer(index: &Index, code_point: char) -> Option<u32>
    ensures value { result ≡ shift_jis_pointer index.now code_point }
    ensures bound { IfSome result (λ p. p ≤ pointer_limit index.now.kind) }
{
    law_pointer_exclusion();
    match index.pointer(Scalar::from(code_point))? {
        8272..=8835 => index.pointer_from(Scalar::from(code_point), 8836),
        pointer => Some(pointer),
    }
}

/// The code point that is looked up: the full-width minus sign for the other one.
pub(crate) fn minus_folded(code_point: char) -> char
    ensures { result ≡ minus_folded code_point }
{
    if code_point == '\u{2212}' {
        '\u{FF0D}'
    } else {
        code_point
    }
}

/// The two bytes of a pointer.
fn shift_jis_pair(pointer: u32) -> Few
    requires { pointer ≤ 11279 }
    ensures { bytes_of result ≡ shift_jis_pair pointer }
{
    let lead = (pointer / 188) as u8;
    let trail = (pointer % 188) as u8;
    let lead_offset = if lead < 0x1F { 0x81 } else { 0xC1 };
    let trail_offset = if trail < 0x3F { 0x40 } else { 0x41 };
    Few::Two(lead + lead_offset, trail + trail_offset)
}

/// The rules of the encoder of Shift_JIS (Encoding Standard).
pub(crate) enum ShiftJis {}

impl IndexRules for ShiftJis {
    ghost use Rattle.encoders.specs.StatelessLaws.{by_ascii_or};

    ghost limit = { 11279 };

    ghost written = { shift_jis_bytes };

    #[inline(always)]
    fn bytes(index: &Index, code_point: char) -> Option<Few> {
        match u32::from(code_point) {
            0..=0x80 => Some(Few::One(code_point as u8)),
            0xA5 => Some(Few::One(0x5C)),
            0x203E => Some(Few::One(0x7E)),
            0xFF61..=0xFF9F => Some(Few::One((u32::from(code_point) - 0xFF61) as u8 + 0xA1)),
            _ => {
                let pointer = shift_jis_pointer(index, minus_folded(code_point))?;
                Some(shift_jis_pair(pointer))
            }
        }
    }

    ghost ascii = { λ e c is. by_ascii_or _ c is };
}
