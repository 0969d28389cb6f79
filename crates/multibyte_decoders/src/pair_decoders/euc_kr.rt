//! EUC-KR.
ghost use Rattle.std.specs.Prelude.{true};
ghost use Rattle.std.proofs.Common.{refl, rules};
ghost use Rattle.multibyte_decoders.specs.PairRules.EucKr.{euc_kr};

use crate::pair_tables::numbers;
use crate::pairs::PairRules;
use crate::turns::{ascii_item, one_of};
use decoder_core::Item;
use index_loader::FormedIndex;

/// The starts of the leads' rows.
const ROWS: [u16; 256] = numbers!(190, 0x81 to 0xFE above 0x81);

/// The columns of the trails.
const COLUMNS: [u16; 256] = numbers!(1, 0x41 to 0xFE above 0x41);

/// The rules of EUC-KR for single bytes and pairs, over index EUC-KR. (Encoding Standard, "EUC-KR
/// decoder".)
pub enum EucKrRules {}

impl PairRules for EucKrRules {
    ghost rule = { euc_kr };

    ghost known = { λ _. true };

    // In the loop over the bytes, as all of these.
    #[inline(always)]
    fn is_lead(byte: u8) -> bool {
        (0x81..=0xFE).contains(&byte)
    }

    #[inline(always)]
    fn single(byte: u8) -> Item {
        ascii_item(byte)
    }

    #[inline(always)]
    fn is_trail(byte: u8) -> bool {
        (0x41..=0xFE).contains(&byte)
    }

    #[inline(always)]
    fn pointer(lead: u8, trail: u8) -> u32 {
        u32::from(lead.saturating_sub(0x81)) * 190 + u32::from(trail.saturating_sub(0x41))
    }

    #[inline(always)]
    fn item(index: &FormedIndex<'_>, pointer: u32) -> Option<Item> {
        one_of(index.code_point(pointer))
    }

    #[inline(always)]
    fn rows() -> &'static [u16; 256] {
        &ROWS
    }

    #[inline(always)]
    fn columns() -> &'static [u16; 256] {
        &COLUMNS
    }

    ghost ascii = { λ b low. Prim.search rules };

    ghost plain = { λ index lead b known trail. refl };
}
