//! Big5.
ghost use Rattle.std.proofs.Common.{rules};
ghost use Rattle.multibyte_decoders.specs.{PairRules.Big5.big5, PairLaws.big5_known, PairLaws.big5_plain};

use crate::pair_tables::numbers;
use crate::pairs::PairRules;
use crate::turns::{ascii_item, one_of};
use decoder_core::Item;
use decoder_core::forms::scalar;
use index_loader::FormedIndex;

/// The starts of the leads' rows, except the row with pointers of two code points.
const ROWS: [u16; 256] = numbers!(157, 0x81 to 0x87 above 0x81, 0x89 to 0xFE above 0x81);

/// The columns of the trails.
const COLUMNS: [u16; 256] = numbers!(1, 0x40 to 0x7E above 0x40, 0xA1 to 0xFE above 0x62);

/// The rules of Big5 for single bytes and pairs, over index Big5. (Encoding Standard, "Big5
/// decoder".)
pub enum Big5Rules {}

impl PairRules for Big5Rules {
    ghost rule = { big5 };

    ghost known = { big5_known };

    // In the loop over the bytes, as all of these.
    #[inline(always)]
    fn is_lead(byte: u8) -> bool {
        (0x81..=0xFE).contains(&byte)
    }

    #[inline(always)]
    fn single(byte: u8) -> Item {
        ascii_item(byte)
    }

    // One range except a gap in it: a branch on the half that it is in would be mispredicted again
    // and again.
    #[inline(always)]
    fn is_trail(byte: u8) -> bool {
        0x40 <= byte && byte <= 0xFE && !(0x7F <= byte && byte <= 0xA0)
    }

    #[inline(always)]
    fn pointer(lead: u8, trail: u8) -> u32 {
        let column = if trail < 0x7F {
            trail.saturating_sub(0x40)
        } else {
            trail - 0x62
        };
        u32::from(lead.saturating_sub(0x81)) * 157 + u32::from(column)
    }

    // Four pointers give two code points.
    #[inline(always)]
    fn item(index: &FormedIndex<'_>, pointer: u32) -> Option<Item> {
        match pointer {
            1133 => Some(Item::Two(scalar(0xCA), scalar(0x304))),
            1135 => Some(Item::Two(scalar(0xCA), scalar(0x30C))),
            1164 => Some(Item::Two(scalar(0xEA), scalar(0x304))),
            1166 => Some(Item::Two(scalar(0xEA), scalar(0x30C))),
            _ => one_of(index.code_point(pointer)),
        }
    }

    #[inline(always)]
    fn rows() -> &'static [u16; 256] {
        &ROWS
    }

    #[inline(always)]
    fn columns() -> &'static [u16; 256] {
        &COLUMNS
    }

    ghost ascii = { λ b low. Prim.search rules };

    ghost plain = { big5_plain };
}
