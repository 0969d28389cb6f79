//! Shift_JIS.
ghost use Rattle.std.specs.Prelude.{◌≡◌, ◌+◌, ◌-◌, ◌≤◌};
ghost use Rattle.std.proofs.Common.{rules};
ghost use Rattle.index_loader.specs.Index.{code_point_of};
ghost use Rattle.multibyte_decoders.specs.PairLaws.{shift_jis_known, shift_jis_plain};
ghost use Rattle.multibyte_decoders.specs.PairRules.ShiftJis.{shift_jis, shift_jis_code_point};

use crate::pair_tables::numbers;
use crate::pairs::PairRules;
use crate::turns::one_of;
use decoder_core::Item;
use decoder_core::forms::scalar;
use enc_names::Scalar;
use index_loader::FormedIndex;

/// The starts of the leads' rows, up to the first pointer of private use.
const ROWS: [u16; 256] = numbers!(188, 0x81 to 0x9F above 0x81, 0xE0 to 0xEF above 0xC1);

/// The columns of the trails.
const COLUMNS: [u16; 256] = numbers!(1, 0x40 to 0x7E above 0x40, 0x80 to 0xFC above 0x41);

/// The rules of Shift_JIS for single bytes and pairs, over index jis0208. (Encoding Standard, "Shift_JIS
/// decoder".)
pub enum ShiftJisRules {}

/// The code point of a pointer for private use.
// In the loop over the bytes.
#[inline(always)]
fn private_use(pointer: u32) -> Scalar
    requires least { 8836 ≤ pointer }
    requires most { pointer ≤ 10715 }
    ensures { result ≡ 0xE000 - 8836 + pointer }
{
    scalar(0xE000 - 8836 + pointer)
}

/// The code point of a pointer.
// In the loop over the bytes.
#[inline(always)]
fn entry(index: &FormedIndex<'_>, pointer: u32) -> Option<Scalar>
    ensures { result ≡ shift_jis_code_point (code_point_of index.now) pointer }
{
    match pointer {
        8836..=10715 => Some(private_use(pointer)),
        _ => index.code_point(pointer),
    }
}

impl PairRules for ShiftJisRules {
    ghost rule = { shift_jis };

    ghost known = { shift_jis_known };

    // In the loop over the bytes, as all of these.
    #[inline(always)]
    fn is_lead(byte: u8) -> bool {
        if byte < 0xA0 {
            byte > 0x80
        } else {
            (0xE0..=0xFC).contains(&byte)
        }
    }

    #[inline(always)]
    fn single(byte: u8) -> Item {
        match byte {
            0..=0x80 => Item::One(scalar(u32::from(byte))),
            0xA1..=0xDF => Item::One(scalar(0xFF61 - 0xA1 + u32::from(byte))),
            _ => Item::Error,
        }
    }

    // One range except one byte: a branch on the half that it is in would be mispredicted again and
    // again.
    #[inline(always)]
    fn is_trail(byte: u8) -> bool {
        0x40 <= byte && byte <= 0xFC && byte != 0x7F
    }

    #[inline(always)]
    fn pointer(lead: u8, trail: u8) -> u32 {
        let row = if lead < 0xA0 {
            lead.saturating_sub(0x81)
        } else {
            lead.saturating_sub(0xC1)
        };
        let column = if trail < 0x7F {
            trail.saturating_sub(0x40)
        } else {
            trail - 0x41
        };
        u32::from(row) * 188 + u32::from(column)
    }

    #[inline(always)]
    fn item(index: &FormedIndex<'_>, pointer: u32) -> Option<Item> {
        one_of(entry(index, pointer))
    }

    #[inline(always)]
    fn rows() -> &'static [u16; 256] {
        &ROWS
    }

    #[inline(always)]
    fn columns() -> &'static [u16; 256] {
        &COLUMNS
    }

    ghost ascii = { λ b low. Prim.search rules };

    ghost plain = { shift_jis_plain };
}
