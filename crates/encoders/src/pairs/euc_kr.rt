//! The EUC-KR encoder.
ghost use Rattle.std.specs.Prelude.{◌≡◌, ◌≤◌};
ghost use Rattle.decoder_core.specs.Steps.{bytes_of};
ghost use Rattle.index_loader.specs.Table.{pointer_limit};
ghost use Rattle.encoders.specs.Pairs.EucKr.{euc_kr_bytes, euc_kr_pair};

use crate::over_index::IndexRules;
use decoder_core::Few;
use enc_names::Scalar;
use index_loader::Index;

/// The two bytes of a pointer.
fn euc_kr_pair(pointer: u32) -> Few
    requires { pointer ≤ 23939 }
    ensures { bytes_of result ≡ euc_kr_pair pointer }
{
    let lead = (pointer / 190) as u8 + 0x81;
    let trail = (pointer % 190) as u8 + 0x41;
    Few::Two(lead, trail)
}

/// The rules of the encoder of EUC-KR (Encoding Standard).
pub(crate) enum EucKr {}

impl IndexRules for EucKr {
    ghost use Rattle.encoders.specs.StatelessLaws.{by_ascii_or};

    ghost limit = { 23939 };

    ghost written = { euc_kr_bytes };

    #[inline(always)]
    fn bytes(index: &Index, code_point: char) -> Option<Few> {
        if code_point.is_ascii() {
            return Some(Few::One(code_point as u8));
        }
        let pointer = index.pointer(Scalar::from(code_point))?;
        Some(euc_kr_pair(pointer))
    }

    ghost ascii = { λ e c is. by_ascii_or _ c is };
}
