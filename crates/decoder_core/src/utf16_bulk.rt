//! UTF-16 in bulk.
ghost use Rattle.std.specs.Prelude.{◌≡◌, ◌*◌, ◌≤◌, length, take};
ghost use Rattle.lane_ascii.specs.Pairs.{swapped};
ghost use Rattle.decoder_core.specs.Utf16.{utf16, utf16_start, unit_of, units_of};
ghost use Rattle.decoder_core.specs.{Bulk.IsBulk, declared.bulk.Stride.TheVariants.Utf16, declared.utf16.ByteOrder.TheVariants.LittleEndian};

use crate::bulk::{Bulk, NO_BULK, Stride};
use crate::utf16::ByteOrder;
use lane_ascii::{narrow_ascii, swap_pairs};
use lane_utf::{ToUtf8Fault, law_forms, utf16_to_utf8};

/// The most units that are converted at once: each is at most three bytes of UTF-8, so that the
/// block has room for them. They are sixteens, since ASCII is taken by these.
const MOST: usize = 336;

/// Takes the leading units up to the first lone surrogate, if nothing is pending. A lead surrogate
/// that is the last unit at hand isn't taken.
pub(crate) fn utf16_bulk(order: ByteOrder, bytes: &[u8], text: &mut [u8; 1024]) -> Bulk
    ensures { IsBulk (utf16 order) utf16_start bytes.now result text.new }
{
    if let ByteOrder::LittleEndian = order {
        let ascii = ascii_bulk(bytes, text);
        if ascii.taken > 0 {
            return ascii;
        }
    }
    converted_bulk(order, bytes, text)
}

/// Takes ASCII alone, which needs no unit to be read.
fn ascii_bulk(bytes: &[u8], text: &mut [u8; 1024]) -> Bulk
    ensures { IsBulk (utf16 LittleEndian) utf16_start bytes.now result text.new }
{
    law_forms();
    let count = narrow_ascii(bytes, text);
    unit_bulk(count, count)
}

/// Takes units by what converts them to UTF-8.
fn converted_bulk(order: ByteOrder, bytes: &[u8], text: &mut [u8; 1024]) -> Bulk
    ensures { IsBulk (utf16 order) utf16_start bytes.now result text.new }
{
    let count = (bytes.len() / 2).min(MOST);
    let mut units = [0; 336];
    read_units(order, &bytes[..2 * count], count, &mut units);
    match utf16_to_utf8(&units[..count], text) {
        Ok(written) => unit_bulk(count, written),
        Err(ToUtf8Fault::LoneSurrogate(at)) => {
            let paired = at.min(count);
            match utf16_to_utf8(&units[..paired], text) {
                Ok(written) => unit_bulk(paired, written),
                Err(_) => NO_BULK,
            }
        }
        Err(ToUtf8Fault::NeedsRoom(_)) => NO_BULK,
    }
}

/// `units` units were taken.
fn unit_bulk(units: usize, written: usize) -> Bulk
    requires { units ≤ 1024 }
    ensures { result ≡ record { taken = 2 * units; written = written; stride = Utf16 } }
{
    Bulk {
        taken: 2 * units,
        written,
        stride: Stride::Utf16,
    }
}

/// The units of the bytes.
fn read_units(order: ByteOrder, bytes: &[u8], count: usize, units: &mut [u16; 336])
    requires even { length bytes.now ≡ 2 * count }
    requires room { count ≤ 336 }
    ensures { take count units.new ≡ units_of order bytes.now }
{
    match order {
        ByteOrder::LittleEndian => read_little(bytes, count, units),
        ByteOrder::BigEndian => {
            let mut little = [0; 672];
            swap_into(bytes, &mut little);
            read_little(&little[..2 * count], count, units);
        }
    }
}

/// The bytes in the other byte order.
fn swap_into(bytes: &[u8], other: &mut [u8; 672])
    requires { length bytes.now ≤ 672 }
    ensures { take (length bytes.now) other.new ≡ swapped bytes.now }
{
    other[..bytes.len()].copy_from_slice(bytes);
    swap_pairs(&mut other[..bytes.len()]);
}

/// The units of the bytes, the low byte of each first.
fn read_little(bytes: &[u8], count: usize, units: &mut [u16; 336])
    requires even { length bytes.now ≡ 2 * count }
    requires room { count ≤ 336 }
    ensures { take count units.new ≡ units_of LittleEndian bytes.now }
{
    let mut at = 0;
    'units: while at < count {
        units[at] = little_unit(bytes[2 * at], bytes[2 * at + 1]);
        at += 1;
    }
}

/// The unit of two bytes, the low one first.
#[inline(always)]
fn little_unit(low: u8, high: u8) -> u16
    ensures { result ≡ unit_of LittleEndian low high }
{
    u16::from(high) * 0x100 + u16::from(low)
}
