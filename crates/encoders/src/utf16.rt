//! UTF-16BE and UTF-16LE.
ghost use Rattle.std.specs.Prelude.{◌≡◌, ◌*◌, ◌≤◌, ◌++◌, length, take, IfOk, OnOk};
ghost use Rattle.std.specs.Str.{chars};
ghost use Rattle.decoder_core.specs.declared.utf16.ByteOrder.TheVariants.{LittleEndian};
ghost use Rattle.lane_utf.specs.Utf16.{utf16_forms};
ghost use Rattle.encoders.specs.Utf16.{units_bytes};

use decoder_core::ByteOrder;
use lane_ascii::swap_pairs;
use lane_utf::{count_utf16, law_forms, utf8_to_utf16};
use std::alloc::{AllocError, Global};

/// The number of bytes of a text that are converted at once; they have at most as many units.
const PART: usize = 512;

/// Writes a text as UTF-16 in a byte order, without a byte order mark. (Unicode, chapter 3, D91.)
pub(crate) fn encode_utf16(
    alloc: Global,
    order: ByteOrder,
    text: &str,
) -> Result<Vec<u8>, AllocError>
    ensures { IfOk result (λ bytes. bytes.items ≡ units_bytes order (utf16_forms (chars text.now))) }
{
    law_forms();
    let mut bytes = Vec::with_capacity(alloc, count_utf16(text).saturating_mul(2))?;
    let mut rest = text;
    'parts: while !rest.is_empty() {
        let (part, behind) = rest.split_at(rest.floor_char_boundary(PART));
        put_part(order, part, &mut bytes)?;
        rest = behind;
    }
    Ok(bytes)
}

/// Puts the bytes of a part.
fn put_part(order: ByteOrder, part: &str, bytes: &mut Vec<u8>) -> Result<(), AllocError>
    requires { length part.now ≤ 512 }
    ensures { OnOk result (bytes.new.items ≡ bytes.old.items ++ units_bytes order (utf16_forms (chars part.now))) }
{
    let mut units = [0; 512];
    let mut block = [0; 1024];
    let count = form_of(part, &mut units);
    write_units(order, &units[..count], &mut block);
    bytes.extend_from_slice(&block[..2 * count])
}

/// Writes the units of a part, and returns their number.
fn form_of(part: &str, units: &mut [u16; 512]) -> usize
    requires { length part.now ≤ 512 }
    ensures few { result ≤ 512 }
    ensures form { take result units.new ≡ utf16_forms (chars part.now) }
{
    law_forms();
    match utf8_to_utf16(part, units) {
        Ok(count) => count,
        Err(_) => unreachable!(),
    }
}

/// Writes the bytes of the units.
fn write_units(order: ByteOrder, units: &[u16], block: &mut [u8; 1024])
    requires { length units.now ≤ 512 }
    ensures { take (2 * length units.now) block.new ≡ units_bytes order units.now }
{
    write_little(units, block);
    match order {
        ByteOrder::BigEndian => swap_pairs(&mut block[..2 * units.len()]),
        ByteOrder::LittleEndian => {}
    }
}

/// Writes the bytes of the units, the low byte of each first.
fn write_little(units: &[u16], block: &mut [u8; 1024])
    requires { length units.now ≤ 512 }
    ensures { take (2 * length units.now) block.new ≡ units_bytes LittleEndian units.now }
{
    let mut at = 0;
    'units: while at < units.len() {
        block[2 * at] = (units[at] % 0x100) as u8;
        block[2 * at + 1] = (units[at] / 0x100) as u8;
        at += 1;
    }
}
