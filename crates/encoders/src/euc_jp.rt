//! The EUC-JP encoder.
ghost use Rattle.std.specs.Prelude.{◌≡◌, ◌≤◌};
ghost use Rattle.decoder_core.specs.Steps.{bytes_of};
ghost use Rattle.encoders.specs.EucJp.{euc_jp_bytes, euc_jp_pair};

use crate::over_index::IndexRules;
use crate::pairs::minus_folded;
use decoder_core::Few;
use index_loader::Index;
use iso2022jp::row_pointer;

/// The two bytes of a pointer.
fn euc_jp_pair(pointer: u32) -> Few
    requires { pointer ≤ 8835 }
    ensures { bytes_of result ≡ euc_jp_pair pointer }
{
    let lead = (pointer / 94) as u8 + 0xA1;
    let trail = (pointer % 94) as u8 + 0xA1;
    Few::Two(lead, trail)
}

/// The rules of the encoder of EUC-JP (Encoding Standard).
pub(crate) enum EucJp {}

impl IndexRules for EucJp {
    ghost use Rattle.encoders.specs.StatelessLaws.{by_ascii_or};

    ghost limit = { 11279 };

    ghost written = { euc_jp_bytes };

    #[inline(always)]
    fn bytes(index: &Index, code_point: char) -> Option<Few> {
        match u32::from(code_point) {
            0..=0x7F => Some(Few::One(code_point as u8)),
            0xA5 => Some(Few::One(0x5C)),
            0x203E => Some(Few::One(0x7E)),
            0xFF61..=0xFF9F => {
                let trail = (u32::from(code_point) - 0xFF61) as u8 + 0xA1;
                Some(Few::Two(0x8E, trail))
            }
            _ => {
                let pointer = row_pointer(index, minus_folded(code_point))?;
                Some(euc_jp_pair(pointer))
            }
        }
    }

    ghost ascii = { λ e c is. by_ascii_or _ c is };
}
